// A node's own step in a call: its kept sets are loaded behind its children's, its newly settled points are settled, what is still wanted of it is kept, and its sets take the place of its children's.
#![tactic(auto)]

ghost use Rattle.std.specs.Prelude.{◌≡◌, ℕ, ◌+◌, ◌*◌, ◌≤◌, ◌<◌, length, set};
ghost use mathlib.Core.List.{[], Memᴰ};
ghost use Rattle.meaning.specs.Outcome.{most_rows};
ghost use Rattle.meaning.specs.RuleFile.{node_count, node_at, children_of};
ghost use Rattle.method.specs.Step.{entries_now};
ghost use Rattle.method.specs.Room.{rows_most, sets_most};
ghost use Rattle.rowset.specs.Sets.{SetRoom};
ghost use Rattle.entries.specs.Appended.{Space};
ghost use Rattle.node_step.specs.Figures.{called, CallReady};
ghost use Rattle.node_step.specs.Walks.{set_words, RoomFor, ChildrenStand, OutThere, Walks};
ghost use Rattle.node_step.specs.Parts.{child_in, FiguresThere, ChildSetsAre, OwnFigures, ages_of, SetPushed, NextReady, NextSettled, LeafReady, LeafStep, PointsReady, PointsSettled, PairsReady, PairsKept, BlockReady, BlockKept};

use meaning::{Children, LogEnd, MOST_NODES, MOST_ROWS, Node, Point};
use progress::Retained;
use room::{CallSets, Child, Operands};
use settling::Given;
use since::Held;

// Where a node's step begins: so many sets are below its children's, so many stand in all, left's and right's begin at these sets, and so many entries are kept.
#[derive(Clone, Copy)]
pub struct Spot {
    pub below: usize,
    pub sets: usize,
    pub left: usize,
    pub right: usize,
    pub kept: usize,
}

// Rows at most that a set has.
const MOST: usize = MOST_ROWS as usize;

// The first words of the table of blocks are lent to the set that is being made: 33 rows of 4 words, one row more than a set may have, so that one too many shows.
pub const SET_WORDS: usize = (MOST + 1) * 4;

// The words of a node in the table of figures.
pub const NODE_WORDS: usize = 9;

// The number that stands for no node: one more than the last of as many as a rule may have.
pub const NO_NODE: u8 = MOST_NODES as u8;

// Where a step or a walk ends: so many entries are kept; and the lowest node that is crowded, NO_NODE where there is none.
#[derive(Clone, Copy)]
pub struct Place {
    pub kept: usize,
    pub low: u8,
}

// A node's own figures: its lowest free variable; the point of its first set, how many points it had settled and has settled now, the point from which on its rows are kept; and where its entries begin, its pairs among them, and the entry behind them.
#[derive(Clone, Copy)]
struct Own {
    lowest: u32,
    low: Point,
    before: u32,
    after: u32,
    want: Point,
    begin: usize,
    pairs: usize,
    end: usize,
}

// The sets of a node's children. Where there is one it is left; where there is none neither is read.
#[derive(Clone, Copy)]
struct ChildSets {
    left: Child,
    right: Child,
}

// The figures of node x.
fn own_figures(figures: &[u32], x: u8) -> Own
    requires { FiguresThere figures.now x }
    ensures { OwnFigures figures.now x result }
{
    let k = x as usize * NODE_WORDS;
    Own {
        lowest: kinds::lowest_of(figures[k] as u8),
        low: Point(figures[k + 1]),
        before: figures[k + 2],
        after: figures[k + 3],
        want: Point(figures[k + 4]),
        begin: figures[k + 5] as usize,
        pairs: figures[k + 6] as usize,
        end: figures[k + 7] as usize,
    }
}

// The sets of node y, which begin at set `first`.
fn child_at(figures: &[u32], y: u8, first: usize) -> Child
    requires { FiguresThere figures.now y }
    ensures { result ≡ child_in figures.now y first }
{
    let k = y as usize * NODE_WORDS;
    let mask = figures[k] as u8;
    Child {
        first,
        low: Point(figures[k + 1]),
        count: figures[k + 3],
        mask,
        lowest: kinds::lowest_of(mask),
    }
}

// The sets of the node's children, left's from set `first` on and right's from set `second` on.
fn children_at(figures: &[u32], node: Node, first: usize, second: usize) -> ChildSets
    requires { (y : ℕ) → Memᴰ y (children_of node) → FiguresThere figures.now y }
    ensures { ChildSetsAre figures.now (children_of node) first second result.left result.right }
{
    let children = rulenodes::children_of(node);
    match children {
        Children::None => {
            let none = Child {
                first: 0,
                low: Point(0),
                count: 0,
                mask: 0,
                lowest: 0,
            };
            ChildSets {
                left: none,
                right: none,
            }
        }
        Children::One(a) => {
            let left = child_at(figures, a, first);
            ChildSets { left, right: left }
        }
        Children::Two(a, b) => {
            let left = child_at(figures, a, first);
            let right = child_at(figures, b, second);
            ChildSets { left, right }
        }
    }
}

// Puts the set of k rows that was made in `out` behind n others; false where it has more than 32.
fn push_set(out: &[u32], k: usize, rows: &mut [u32], at: &mut [u32], n: usize) -> bool
    requires set_room { SetRoom out.now 0 }
    requires space { Space rows.old at.old n most_rows }
    ensures { SetPushed out.now k rows.old at.old n rows.new at.new result }
{
    if MOST < k {
        return false;
    }
    entries::push(out, 0, k, rows, at, n);
    true
}

// Settles the node's point i, and puts its set behind n others; false where it has more than 32 rows. The node's pairs before point start are held in the old slices. The set is made in `out`.
fn settle_next(
    node: Node,
    lowest: u32,
    rule: &[u8],
    rows: &mut [u32],
    at: &mut [u32],
    n: usize,
    left: Child,
    right: Child,
    times: &[u32],
    base: Point,
    event: &[u32],
    old_ages: &[u32],
    old_values: &[u32],
    start: Point,
    i: Point,
    out: &mut [u32],
) -> bool
    requires next_ready { NextReady rule.now event.now rows.old at.old times.now base old_ages.now old_values.now left right n lowest start i node }
    requires set_room { SetRoom out.old 0 }
    ensures { NextSettled rule.now event.now rows.old at.old times.now base old_ages.now old_values.now left right n lowest start i node rows.new at.new result }
{
    let of = Operands {
        lowest,
        left,
        right,
    };
    let given = Given {
        rule,
        event,
        retained: Retained { times, base },
    };
    let held = Held {
        ages: old_ages,
        values: old_values,
        start,
    };
    let k = settling::settle_point(node, &of, &given, CallSets { rows, at }, held, i, out);
    push_set(out, k, rows, at, n)
}

// Settles the node's points from start on before end, and puts their sets behind `sets` others; false where a point has more than 32 rows. The node's pairs before these points are held in the old slices. Each set is made in `out`.
fn settle_points(
    node: Node,
    lowest: u32,
    rule: &[u8],
    rows: &mut [u32],
    at: &mut [u32],
    sets: usize,
    left: Child,
    right: Child,
    times: &[u32],
    base: Point,
    event: &[u32],
    old_ages: &[u32],
    old_values: &[u32],
    start: Point,
    end: Point,
    out: &mut [u32],
) -> bool
    requires points_ready { PointsReady rule.now event.now rows.old at.old times.now base old_ages.now old_values.now left right sets lowest start end node }
    requires set_room { SetRoom out.old 0 }
    ensures { PointsSettled rule.now event.now rows.old at.old times.now base old_ages.now old_values.now left right sets lowest start end node rows.new at.new result }
{
    let mut i = start.0;
    while i < end.0 {
        let done = settle_next(
            node,
            lowest,
            rule,
            rows,
            at,
            sets + (i - start.0) as usize,
            left,
            right,
            times,
            base,
            event,
            old_ages,
            old_values,
            start,
            Point(i),
            out,
        );
        if !done {
            return false;
        }
        i += 1;
    }
    true
}

// Puts the node's pairs behind the kept entries: those at the last point before end, or the old ones where no point is new; how many entries are then kept, or one more than there is room for.
fn keep_pairs_at(
    node: Node,
    lowest: u32,
    rule: &[u8],
    rows: &[u32],
    at: &[u32],
    children: ChildSets,
    times: &[u32],
    base: Point,
    event: &[u32],
    old_ages: &[u32],
    old_values: &[u32],
    start: Point,
    end: Point,
    out_numbers: &mut [u32],
    out_values: &mut [u32],
    kept: usize,
) -> usize
    requires { PairsReady rule.now event.now rows.now at.now times.now base old_ages.now old_values.now children.left children.right lowest start end node out_numbers.old out_values.old kept }
    ensures { PairsKept rule.now event.now rows.now at.now times.now base old_ages.now old_values.now children.left children.right lowest start end node out_numbers.old out_values.old kept out_numbers.new out_values.new result }
{
    if end.0 <= start.0 {
        return node_sets::keep_pairs(old_ages, old_values, out_numbers, out_values, kept);
    }
    if out_numbers.len() < kept {
        return kept;
    }
    let of = Operands {
        lowest,
        left: children.left,
        right: children.right,
    };
    let given = Given {
        rule,
        event,
        retained: Retained { times, base },
    };
    let held = Held {
        ages: old_ages,
        values: old_values,
        start,
    };
    let n = settling::settle_pairs(
        node,
        &of,
        &given,
        CallSets { rows, at },
        held,
        Point(end.0 - 1),
        &mut out_numbers[kept..],
        &mut out_values[kept * 4..],
    );
    kept + n
}

// Sets the three words of node x in the table.
fn note_block(blocks: &mut [u32], x: u8, rows: usize, pairs: usize, end: usize)
    requires { (set_words + x * 3 + 3 ≤ length blocks.old) × (rows < 4294967296) × (pairs < 4294967296) × (end < 4294967296) }
    ensures { blocks.new ≡ set (set (set blocks.old (set_words + x * 3) rows) (set_words + x * 3 + 1) pairs) (set_words + x * 3 + 2) end }
{
    let k = SET_WORDS + x as usize * 3;
    blocks[k] = rows as u32;
    blocks[k + 1] = pairs as u32;
    blocks[k + 2] = end as u32;
}

// Puts what is wanted of node x behind the kept entries, its rows and then its pairs, and notes where; how many entries are then kept, or one more than there is room for. Its sets begin at set `spot.sets`.
fn keep_node(
    node: Node,
    rule: &[u8],
    rows: &[u32],
    at: &[u32],
    children: ChildSets,
    times: &[u32],
    base: Point,
    event: &[u32],
    numbers: &[u32],
    old_values: &[u32],
    own: Own,
    out_numbers: &mut [u32],
    out_values: &mut [u32],
    blocks: &mut [u32],
    x: u8,
    spot: Spot,
) -> usize
    requires { BlockReady rule.now event.now rows.now at.now times.now base numbers.now old_values.now children.left children.right spot.sets own node out_numbers.old out_values.old blocks.old x spot.kept }
    ensures { BlockKept rule.now event.now rows.now at.now times.now base (ages_of numbers.now own) old_values.now children.left children.right spot.sets own node out_numbers.old out_values.old blocks.old x spot.kept out_numbers.new out_values.new blocks.new result }
{
    let n = (own.after - own.want.0) as usize;
    let pairs = node_sets::keep_sets(
        rows,
        at,
        spot.sets,
        own.low,
        own.want,
        n,
        out_numbers,
        out_values,
        spot.kept,
        numbers,
        own.begin,
        Point(own.before),
    );
    let from = own.pairs;
    let to = own.end;
    let kept = keep_pairs_at(
        node,
        own.lowest,
        rule,
        rows,
        at,
        children,
        times,
        base,
        event,
        &numbers[from..to],
        old_values,
        Point(own.before),
        Point(own.after),
        out_numbers,
        out_values,
        pairs,
    );
    note_block(blocks, x, spot.kept, pairs, kept);
    kept
}

// Node x's own step, where its children's sets stand.
pub fn own_step(
    rule: &[u8],
    figures: &[u32],
    owners: &[u32],
    numbers: &[u32],
    values: &[u32],
    stamps: &[u32],
    log: LogEnd,
    event: &[u32],
    rows: &mut [u32],
    at: &mut [u32],
    out_numbers: &mut [u32],
    out_values: &mut [u32],
    blocks: &mut [u32],
    x: u8,
    spot: Spot,
) -> Place
    requires call_ready { CallReady (called rule.now log stamps.now owners.now numbers.now values.now) event.now owners.now numbers.now values.now stamps.now figures.now }
    requires x_bound { (x < node_count rule.now) × (spot.below ≤ spot.sets) }
    requires room_for { RoomFor rows.old at.old spot.sets (sets_most (called rule.now log stamps.now owners.now numbers.now values.now) event.now x) (rows_most (called rule.now log stamps.now owners.now numbers.now values.now) event.now x) }
    requires children_stand { ChildrenStand (called rule.now log stamps.now owners.now numbers.now values.now) event.now rows.old at.old spot.sets (children_of (node_at rule.now x)) spot.left spot.right }
    requires out_there { OutThere (called rule.now log stamps.now owners.now numbers.now values.now) event.now out_numbers.old out_values.old blocks.old spot.kept }
    ensures { Walks (called rule.now log stamps.now owners.now numbers.now values.now) event.now (λ y. y ≡ x) (length (entries_now (called rule.now log stamps.now owners.now numbers.now values.now) event.now x)) x spot.below rows.old at.old rows.new at.new out_numbers.old out_values.old blocks.old out_numbers.new out_values.new blocks.new spot.kept result }
{
    let node = rulenodes::node_at(rule, x);
    let children = children_at(figures, node, spot.left, spot.right);
    let own = own_figures(figures, x);
    let base = Point(log.points + 1 - stamps.len() as u32);
    let loaded = (own.before - own.low.0) as usize;
    let made = (own.after - own.low.0) as usize;
    let from = own.pairs;
    let to = own.end;
    let old_ages = &numbers[from..to];
    let old_values = &values[from * 4..to * 4];
    node_sets::load_sets(
        numbers, values, own.begin, from, own.low, loaded, rows, at, spot.sets,
    );
    let done = settle_points(
        node,
        own.lowest,
        rule,
        rows,
        at,
        spot.sets + loaded,
        children.left,
        children.right,
        stamps,
        base,
        event,
        old_ages,
        old_values,
        Point(own.before),
        Point(own.after),
        &mut blocks[0..SET_WORDS],
    );
    if !done {
        return Place {
            kept: spot.kept,
            low: x,
        };
    }
    let kept = keep_node(
        node,
        rule,
        rows,
        at,
        children,
        stamps,
        base,
        event,
        numbers,
        old_values,
        own,
        out_numbers,
        out_values,
        blocks,
        x,
        spot,
    );
    node_sets::move_down(rows, at, spot.below, spot.sets - spot.below, made);
    Place { kept, low: NO_NODE }
}

// Settles the point that is added, of node x, which has no children, and puts its set behind n others; false where it has more than 32 rows. A notice adds none, and then nothing is done. The set is made in `out`.
fn settle_leaf(
    lowest: u32,
    rule: &[u8],
    event: &[u32],
    rows: &mut [u32],
    at: &mut [u32],
    x: u8,
    n: usize,
    out: &mut [u32],
) -> bool
    requires leaf_ready { LeafReady rule.now event.now rows.old at.old x n }
    requires set_room { SetRoom out.old 0 }
    ensures { LeafStep lowest rule.now event.now rows.old at.old x n rows.new at.new result }
{
    if progress::points_added(event) == 0 {
        return true;
    }
    let atom = rulenodes::atom_at(rule, x);
    let terms = atom.terms;
    let k = kinds::atom(lowest, atom.relation as u32, terms, event, out, 0);
    push_set(out, k, rows, at, n)
}

// The step of node x, which has no children, behind h sets: it is an atom, which settles the point that is added and has no pairs. The owners, the times and where the log ended are there for the contract, which says what is stored.
pub fn leaf_step(
    rule: &[u8],
    figures: &[u32],
    owners: &[u32],
    numbers: &[u32],
    values: &[u32],
    stamps: &[u32],
    log: LogEnd,
    event: &[u32],
    rows: &mut [u32],
    at: &mut [u32],
    out_numbers: &mut [u32],
    out_values: &mut [u32],
    blocks: &mut [u32],
    x: u8,
    h: usize,
    kept: usize,
) -> Place
    requires call_ready { CallReady (called rule.now log stamps.now owners.now numbers.now values.now) event.now owners.now numbers.now values.now stamps.now figures.now }
    requires x_bound { (x < node_count rule.now) × (children_of (node_at rule.now x) ≡ []) }
    requires room_for { RoomFor rows.old at.old h (sets_most (called rule.now log stamps.now owners.now numbers.now values.now) event.now x) (rows_most (called rule.now log stamps.now owners.now numbers.now values.now) event.now x) }
    requires out_there { OutThere (called rule.now log stamps.now owners.now numbers.now values.now) event.now out_numbers.old out_values.old blocks.old kept }
    ensures { Walks (called rule.now log stamps.now owners.now numbers.now values.now) event.now (λ y. y ≡ x) (length (entries_now (called rule.now log stamps.now owners.now numbers.now values.now) event.now x)) x h rows.old at.old rows.new at.new out_numbers.old out_values.old blocks.old out_numbers.new out_values.new blocks.new kept result }
{
    let own = own_figures(figures, x);
    let loaded = (own.before - own.low.0) as usize;
    node_sets::load_sets(
        numbers, values, own.begin, own.pairs, own.low, loaded, rows, at, h,
    );
    let done = settle_leaf(
        own.lowest,
        rule,
        event,
        rows,
        at,
        x,
        h + loaded,
        &mut blocks[0..SET_WORDS],
    );
    if !done {
        return Place { kept, low: x };
    }
    let n = (own.after - own.want.0) as usize;
    let end = node_sets::keep_sets(
        rows,
        at,
        h,
        own.low,
        own.want,
        n,
        out_numbers,
        out_values,
        kept,
        numbers,
        own.begin,
        Point(own.before),
    );
    note_block(blocks, x, kept, end, end);
    Place {
        kept: end,
        low: NO_NODE,
    }
}
