// The walk over a rule's tree in a call: a node's children first, of two the heavier first, then the node itself, whose sets take the place of its children's.
#![tactic(auto)]

ghost use Rattle.std.specs.Prelude.{◌≡◌, cond, ◌+◌, ◌-◌, ◌*◌, ◌≤◌, ◌<◌, length, eqb};
ghost use Rattle.meaning.specs.Outcome.{most_nodes};
ghost use Rattle.meaning.specs.RuleFile.{node_count};
ghost use Rattle.method.specs.Room.{rows_needed, marks_needed};
ghost use Rattle.node_step.specs.Figures.{low_in, after_in, called, CallReady, node_words};
ghost use Rattle.node_step.specs.Walks.{OutThere, Walked};
ghost use Rattle.tree_walk.specs.Tree.{WeightsThere, Ordered, first_of, HeavyPath, TreeReady, TreeWalks, FirstWalked, Climbs};

use meaning::{Children, LogEnd};
use node_step::{NO_NODE, NODE_WORDS, Place, Spot, leaf_step, own_step};
use rulenodes::children_at;

// A node's two children in the order of the walk, and whether they change places in it.
#[derive(Clone, Copy)]
struct Sides {
    first: u8,
    second: u8,
    swapped: bool,
}

// Of two children the heavier first, the left where they weigh the same.
fn ordered(figures: &[u32], left: u8, right: u8) -> Sides
    requires { (left * node_words + node_words ≤ length figures.now) × (right * node_words + node_words ≤ length figures.now) }
    ensures { Ordered figures.now left right result }
{
    let i = (left as usize) * NODE_WORDS + 8;
    let j = (right as usize) * NODE_WORDS + 8;
    if figures[i] < figures[j] {
        return Sides {
            first: right,
            second: left,
            swapped: true,
        };
    }
    Sides {
        first: left,
        second: right,
        swapped: false,
    }
}

// The child of node x that is walked first; x itself where it has none.
fn first_child(rule: &[u8], figures: &[u32], x: u8) -> u8
    requires { WeightsThere rule.now figures.now × (x < node_count rule.now) }
    ensures { result ≡ first_of rule.now x }
{
    let children = children_at(rule, x);
    match children {
        Children::None => x,
        Children::One(a) => a,
        Children::Two(a, c) => ordered(figures, a, c).first,
    }
}

// Notes the nodes from x down to a node without children, each the one that is walked first of those below the one before; returns how many steps down it is.
fn descend(rule: &[u8], figures: &[u32], path: &mut [u8], x: u8) -> usize
    requires { WeightsThere rule.now figures.now × (x < node_count rule.now) × (most_nodes ≤ length path.old) }
    ensures { HeavyPath rule.now path.new result x }
{
    path[0] = x;
    let mut k = 0;
    let mut y = first_child(rule, figures, x);
    while y < path[k] {
        k += 1;
        path[k] = y;
        y = first_child(rule, figures, y);
    }
    k
}

// How many sets node x has in this call.
fn sets_of(figures: &[u32], x: u8) -> usize
    requires { (x * node_words + node_words ≤ length figures.now) × (low_in figures.now x ≤ after_in figures.now x) }
    ensures { result ≡ after_in figures.now x - low_in figures.now x }
{
    let i = (x as usize) * NODE_WORDS;
    (figures[i + 3] - figures[i + 1]) as usize
}

// How many of them stand after the walk of its tree: none where a node of it is crowded.
fn stood(figures: &[u32], x: u8, low: u8) -> usize
    requires { (x * node_words + node_words ≤ length figures.now) × (low_in figures.now x ≤ after_in figures.now x) }
    ensures { result ≡ cond (eqb low most_nodes) (after_in figures.now x - low_in figures.now x) 0 }
{
    if low == NO_NODE {
        return sets_of(figures, x);
    }
    0
}

// Where the own step of a node with two children begins, behind h sets: the sets of the one that was walked first, d of them, stand before the other's, of which there are e.
fn behind_two(h: usize, d: usize, e: usize, swapped: bool, kept: usize) -> Spot
    requires { h + d + e < 4294967296 }
    ensures { result ≡ record { below = h; sets = h + d + e; left = cond swapped (h + d) h; right = cond swapped h (h + d); kept = kept } }
{
    if swapped {
        return Spot {
            below: h,
            sets: h + d + e,
            left: h + d,
            right: h,
            kept,
        };
    }
    Spot {
        below: h,
        sets: h + d + e,
        left: h,
        right: h + d,
        kept,
    }
}

// The rest of node x's tree behind h sets, where the tree of its first child has been walked and left off at p: the other child's tree, if there is one, and x's own step.
#[cycle(climb_second_tree_tree)]
fn climb(
    rule: &[u8],
    figures: &[u32],
    owners: &[u32],
    numbers: &[u32],
    values: &[u32],
    stamps: &[u32],
    log: LogEnd,
    event: &[u32],
    rows: &mut [u32],
    at: &mut [u32],
    out_numbers: &mut [u32],
    out_values: &mut [u32],
    blocks: &mut [u32],
    x: u8,
    h: usize,
    p: Place,
) -> Place
    requires call_ready { CallReady (called rule.now log stamps.now owners.now numbers.now values.now) event.now owners.now numbers.now values.now stamps.now figures.now }
    requires first_walked { FirstWalked (called rule.now log stamps.now owners.now numbers.now values.now) event.now rows.old at.old out_numbers.old out_values.old blocks.old x h p }
    ensures { Climbs (called rule.now log stamps.now owners.now numbers.now values.now) event.now x h rows.old at.old out_numbers.old out_values.old blocks.old p rows.new at.new out_numbers.new out_values.new blocks.new result }
{
    let children = children_at(rule, x);
    match children {
        Children::None => p,
        Children::One(a) => {
            if p.low < NO_NODE {
                return p;
            }
            let d = sets_of(figures, a);
            let spot = Spot {
                below: h,
                sets: h + d,
                left: h,
                right: h,
                kept: p.kept,
            };
            own_step(
                rule,
                figures,
                owners,
                numbers,
                values,
                stamps,
                log,
                event,
                rows,
                at,
                out_numbers,
                out_values,
                blocks,
                x,
                spot,
            )
        }
        Children::Two(a, c) => {
            let sides = ordered(figures, a, c);
            let second = sides.second;
            let d = stood(figures, sides.first, p.low);
            let q = second_tree(
                rule,
                figures,
                owners,
                numbers,
                values,
                stamps,
                log,
                event,
                rows,
                at,
                out_numbers,
                out_values,
                blocks,
                second,
                h + d,
                p.kept,
            );
            if p.low < q.low {
                return Place {
                    kept: q.kept,
                    low: p.low,
                };
            }
            if q.low < NO_NODE {
                return q;
            }
            let e = sets_of(figures, second);
            let spot = behind_two(h, d, e, sides.swapped, q.kept);
            own_step(
                rule,
                figures,
                owners,
                numbers,
                values,
                stamps,
                log,
                event,
                rows,
                at,
                out_numbers,
                out_values,
                blocks,
                x,
                spot,
            )
        }
    }
}

// The tree of a second child x, behind h sets: x's own step alone where it has no children.
#[cycle(climb_second_tree_tree)]
fn second_tree(
    rule: &[u8],
    figures: &[u32],
    owners: &[u32],
    numbers: &[u32],
    values: &[u32],
    stamps: &[u32],
    log: LogEnd,
    event: &[u32],
    rows: &mut [u32],
    at: &mut [u32],
    out_numbers: &mut [u32],
    out_values: &mut [u32],
    blocks: &mut [u32],
    x: u8,
    h: usize,
    kept: usize,
) -> Place
    requires call_ready { CallReady (called rule.now log stamps.now owners.now numbers.now values.now) event.now owners.now numbers.now values.now stamps.now figures.now }
    requires tree_ready { TreeReady (called rule.now log stamps.now owners.now numbers.now values.now) event.now rows.old at.old out_numbers.old out_values.old blocks.old x h kept }
    ensures { TreeWalks (called rule.now log stamps.now owners.now numbers.now values.now) event.now x h rows.old at.old rows.new at.new out_numbers.old out_values.old blocks.old out_numbers.new out_values.new blocks.new kept result }
{
    let children = children_at(rule, x);
    let Children::None = children else {
        return tree(
            rule,
            figures,
            owners,
            numbers,
            values,
            stamps,
            log,
            event,
            rows,
            at,
            out_numbers,
            out_values,
            blocks,
            x,
            h,
            kept,
        );
    };
    leaf_step(
        rule,
        figures,
        owners,
        numbers,
        values,
        stamps,
        log,
        event,
        rows,
        at,
        out_numbers,
        out_values,
        blocks,
        x,
        h,
        kept,
    )
}

// The tree of node x, behind h sets: from the last node of its heavy path up to x itself, so that only the lighter of two children takes a call of its own.
#[cycle(climb_second_tree_tree)]
fn tree(
    rule: &[u8],
    figures: &[u32],
    owners: &[u32],
    numbers: &[u32],
    values: &[u32],
    stamps: &[u32],
    log: LogEnd,
    event: &[u32],
    rows: &mut [u32],
    at: &mut [u32],
    out_numbers: &mut [u32],
    out_values: &mut [u32],
    blocks: &mut [u32],
    x: u8,
    h: usize,
    kept: usize,
) -> Place
    requires call_ready { CallReady (called rule.now log stamps.now owners.now numbers.now values.now) event.now owners.now numbers.now values.now stamps.now figures.now }
    requires tree_ready { TreeReady (called rule.now log stamps.now owners.now numbers.now values.now) event.now rows.old at.old out_numbers.old out_values.old blocks.old x h kept }
    ensures { TreeWalks (called rule.now log stamps.now owners.now numbers.now values.now) event.now x h rows.old at.old rows.new at.new out_numbers.old out_values.old blocks.old out_numbers.new out_values.new blocks.new kept result }
{
    let mut path = [0u8; meaning::MOST_NODES];
    let mut k = descend(rule, figures, &mut path, x);
    let mut p = leaf_step(
        rule,
        figures,
        owners,
        numbers,
        values,
        stamps,
        log,
        event,
        rows,
        at,
        out_numbers,
        out_values,
        blocks,
        path[k],
        h,
        kept,
    );
    while 0 < k {
        k -= 1;
        p = climb(
            rule,
            figures,
            owners,
            numbers,
            values,
            stamps,
            log,
            event,
            rows,
            at,
            out_numbers,
            out_values,
            blocks,
            path[k],
            h,
            p,
        );
    }
    p
}

// The whole tree, in room that is enough for it.
pub fn walk(
    rule: &[u8],
    figures: &[u32],
    owners: &[u32],
    numbers: &[u32],
    values: &[u32],
    stamps: &[u32],
    log: LogEnd,
    event: &[u32],
    rows: &mut [u32],
    at: &mut [u32],
    out_numbers: &mut [u32],
    out_values: &mut [u32],
    blocks: &mut [u32],
) -> Place
    requires call_ready { CallReady (called rule.now log stamps.now owners.now numbers.now values.now) event.now owners.now numbers.now values.now stamps.now figures.now }
    requires event_in_bounds { (rows_needed (called rule.now log stamps.now owners.now numbers.now values.now) event.now * 4 ≤ length rows.old) × (marks_needed (called rule.now log stamps.now owners.now numbers.now values.now) event.now < length at.old) }
    requires out_there { OutThere (called rule.now log stamps.now owners.now numbers.now values.now) event.now out_numbers.old out_values.old blocks.old 0 }
    ensures { Walked (called rule.now log stamps.now owners.now numbers.now values.now) event.now rows.new at.new out_numbers.new out_values.new blocks.new (length out_numbers.old) result }
{
    at[0] = 0;
    let x = rule[2] - 1;
    tree(
        rule,
        figures,
        owners,
        numbers,
        values,
        stamps,
        log,
        event,
        rows,
        at,
        out_numbers,
        out_values,
        blocks,
        x,
        0,
        0,
    )
}
