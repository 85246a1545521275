// The figures of a call and of a state: how many points each node has settled and from which on its rows are kept, where its entries stand, as a table; the rows that the call needs; what is retained; and how many points are open.
#![tactic(auto)]

ghost use Rattle.std.specs.Prelude.{◌≡◌, ℕ, ◌+◌, ◌-◌, ◌*◌, ◌≤◌, ◌<◌, max, length, get_or, take, drop, cond, ltb};
ghost use mathlib.Core.List.{[], ◌∷◌, ◌++◌, map, Memᴰ};
ghost use Rattle.meaning.specs.Log.{stamp};
ghost use Rattle.meaning.specs.Outcome.{given, most_kept, most_nodes, most_bytes};
ghost use Rattle.meaning.specs.RuleFile.{Accepted, checking, node_count, last_node};
ghost use Rattle.meaning.specs.Lists.{total};
ghost use Rattle.meaning.specs.View.{children_in};
ghost use Rattle.method.specs.WellFormed.{most_times, time_words};
ghost use Rattle.method.specs.Stored.{first_retained};
ghost use Rattle.method.specs.Room.{is_previous, others_in, need, need_of_two};
ghost use Rattle.entries.specs.Entries.{EntriesWithin};
ghost use Rattle.entries.specs.Appended.{at_front};
ghost use Rattle.formed.specs.StateFigures.{stored_in};
ghost use Rattle.figures.specs.Tables.{TableOf, rows_in, Weighty, CallTable};
ghost use Rattle.figures.specs.Counts.{bare, Counting, Figured};
ghost use Rattle.figures.specs.Fronts.{stored_front, open_of, open_answer, figures_fit};
ghost use Rattle.node_step.specs.Figures.{weight_in, node_words};
ghost use Rattle.figures.specs.Words.{put_from};
ghost use Rattle.figures.specs.Sizes.{Sized};

use meaning::{
    Children, LogEnd, MOST_KEPT, MOST_NODES, MOST_ROWS, MOST_TIMES, Point, RULE_BYTES, Stamp, Times,
};
use node_step::NODE_WORDS;
use progress::Retained;

// The limits of a state's figures, as words.
const MOST_BYTES: u32 = RULE_BYTES as u32;

const RETAINED: u32 = MOST_TIMES as u32;

const KEPT: u32 = MOST_KEPT as u32;

// How many nodes the rule has.
pub fn node_total(rule: &[u8]) -> usize
    requires { 2 < length rule.now }
    ensures { result ≡ node_count rule.now }
{
    rule[2] as usize
}

// Puts the times with one more behind them to the front.
fn put_times(times: &[u32], time: Stamp, out: &mut [u32])
    requires { length times.now + 1 ≤ length out.old }
    ensures { take (length times.now + 1) out.new ≡ times.now ++ time.0 ∷ [] }
{
    let n = times.len();
    out[..n].copy_from_slice(times);
    out[n] = time.0;
}

// The figures of a call with the words of what is fed, from how many points each node has settled before it.
pub fn figures(
    rule: &[u8],
    log: LogEnd,
    times: &[u32],
    before: &[u32],
    event: &[u32],
    stamps: &mut [u32],
    after: &mut [u32],
    wants: &mut [u32],
)
    requires counting { Counting (bare rule.now log times.now) before.now }
    requires event_nonzero { (0 < length event.now) × (time_words ≤ length stamps.old) × (most_nodes ≤ length after.old) × (most_nodes ≤ length wants.old) }
    ensures { Figured (bare rule.now log times.now) event.now stamps.new after.new wants.new }
{
    let k = times.len();
    let time = Stamp(event[0]);
    put_times(times, time, stamps);
    let base = Point(log.points.saturating_sub(k as u32));
    let end = LogEnd {
        points: log.points + progress::points_added(event),
        latest: time,
    };
    let retained = Retained {
        times: &stamps[0..k + 1],
        base,
    };
    progress::counts(rule, retained, end, before, after);
    let n = node_total(rule);
    wanted::wanted(rule, &after[0..n], wants);
}

// Copies the times that are retained to the front of others, of k stamps of which the last is the latest point's; how many they are.
pub fn retain(after: &[u32], points: u32, stamps: &[u32], times: &mut [u32]) -> u32
    requires { (length stamps.now ≤ points) × (length stamps.now ≤ length times.old) × (length stamps.now < 4294967296) }
    ensures { (times.new ≡ at_front (drop ((first_retained points after.now).0 - (points - length stamps.now)) stamps.now) times.old) × (result ≡ length stamps.now - ((first_retained points after.now).0 - (points - length stamps.now))) }
{
    let k = stamps.len();
    let base = points - k as u32;
    let first = formed::first_retained(points, after);
    let from = first.0.saturating_sub(base) as usize;
    entries::copy_words(&stamps[from..k], k - from, times, 0);
    (k - from) as u32
}

// The figure `open` of what is stored in the slices; None where that isn't well formed.
fn open_stored(
    rule: &[u8],
    log: LogEnd,
    times: &[u32],
    owners: &[u32],
    numbers: &[u32],
    values: &[u32],
    count: usize,
) -> Option<u32>
    requires { EntriesWithin owners.now numbers.now values.now count }
    ensures { open_of result ≡ open_answer (stored_in rule.now log times.now owners.now numbers.now values.now count) }
{
    let mut masks = [0u8; MOST_NODES];
    let mut counts = [0u32; MOST_NODES];
    let mut lows = [0u32; MOST_NODES];
    let mut begins = [0u32; MOST_NODES + 1];
    let mut pairs = [0u32; MOST_NODES];
    if !formed::well_formed(
        rule,
        log,
        times,
        owners,
        numbers,
        values,
        count,
        &mut masks,
        &mut counts,
        &mut lows,
        &mut begins,
        &mut pairs,
    ) {
        return None;
    }
    let last = (rule[2] - 1) as usize;
    Some(log.points - counts[last])
}

// Whether the figures of a state are within its arrays.
pub fn figures_fit(bytes: u32, retained: u32, count: u32) -> bool
    ensures { result ≡ figures_fit bytes retained count }
{
    if MOST_BYTES < bytes {
        return false;
    }
    if RETAINED < retained {
        return false;
    }
    count <= KEPT
}

// The figure `open` of any state whatever, which stands in the slices as for `take`; None where it isn't well formed.
pub fn open_points<'a>(
    rule: &'a [u8],
    bytes: u32,
    log: LogEnd,
    times: &'a [u32],
    retained: u32,
    owners: &'a [u32],
    numbers: &'a [u32],
    values: &'a [u32],
    count: u32,
) -> Option<u32>
    requires { (length rule.now ≡ most_bytes) × (most_times ≤ length times.now) × EntriesWithin owners.now numbers.now values.now most_kept }
    ensures { open_of result ≡ open_answer (stored_front rule.now bytes log times.now retained owners.now numbers.now values.now count) }
{
    if !figures_fit(bytes, retained, count) {
        return None;
    }
    let n = bytes as usize;
    let k = retained as usize;
    open_stored(
        &rule[0..n],
        log,
        &times[0..k],
        owners,
        numbers,
        values,
        count as usize,
    )
}

// The words of a node's children, added up.
fn children_weight(children: Children, words: &[u32]) -> u32
    requires { ((c : ℕ) → Memᴰ c (children_in children) → c < length words.now) × (total (map (λ y. get_or words.now y 0) (children_in children)) ≤ most_nodes) }
    ensures { result ≡ total (map (λ y. get_or words.now y 0) (children_in children)) }
{
    match children {
        Children::None => 0,
        Children::One(a) => words[a as usize],
        Children::Two(a, b) => words[a as usize] + words[b as usize],
    }
}

// Whether a node of these times is "previous".
fn is_previous(look: Times) -> bool
    ensures { result ≡ is_previous look }
{
    matches!(look, Times::Before)
}

// How many nodes of node x's tree aren't "previous", from those of the lower nodes. Of the rule only the node's head is read.
fn weight_at(rule: &[u8], weights: &[u32], x: u8) -> u32
    requires { ((a : Accepted) × (checking rule.now ≡ given a)) × (x < node_count rule.now) × (node_count rule.now ≤ length weights.now) × ((y : ℕ) → y < x → get_or weights.now y 0 ≡ others_in rule.now y) }
    ensures { result ≡ others_in rule.now x }
{
    let below = children_weight(rulenodes::children_at(rule, x), weights);
    if is_previous(rulenodes::times_at(rule, x)) {
        below
    } else {
        below + 1
    }
}

// For each node of an accepted rule, how many nodes of its tree aren't "previous".
pub fn weights(rule: &[u8], out: &mut [u32])
    requires { ((a : Accepted) × (checking rule.now ≡ given a)) × (node_count rule.now ≤ length out.old) }
    ensures { (x : ℕ) → x < node_count rule.now → get_or out.new x 0 ≡ others_in rule.now x }
{
    for x in 0..rule[2] {
        out[x as usize] = weight_at(rule, out, x);
    }
}

// Puts a node's nine words into the table.
fn put_node(
    table: &mut [u32],
    at: usize,
    mask: u32,
    low: Point,
    before: u32,
    after: u32,
    want: Point,
    begin: u32,
    pairs: u32,
    end: u32,
    weight: u32,
)
    requires { at + node_words ≤ length table.old }
    ensures { table.new ≡ put_from table.old at 0 (mask ∷ low.0 ∷ before ∷ after ∷ want.0 ∷ begin ∷ pairs ∷ end ∷ weight ∷ []) }
{
    table[at] = mask;
    table[at + 1] = low.0;
    table[at + 2] = before;
    table[at + 3] = after;
    table[at + 4] = want.0;
    table[at + 5] = begin;
    table[at + 6] = pairs;
    table[at + 7] = end;
    table[at + 8] = weight;
}

// Puts the figures of n nodes into the table, nine words to a node.
pub fn fill_table(
    n: usize,
    masks: &[u8],
    lows: &[u32],
    before: &[u32],
    after: &[u32],
    wants: &[u32],
    begins: &[u32],
    pairs: &[u32],
    weights: &[u32],
    table: &mut [u32],
)
    requires { (n ≤ length masks.now) × (n ≤ length lows.now) × (n ≤ length before.now) × (n ≤ length after.now) × (n ≤ length wants.now) × (n < length begins.now) × (n ≤ length pairs.now) × (n ≤ length weights.now) × (n * node_words ≤ length table.old) }
    ensures { TableOf n masks.now lows.now before.now after.now wants.now begins.now pairs.now weights.now table.new }
{
    for x in 0..n {
        put_node(
            table,
            x * NODE_WORDS,
            u32::from(masks[x]),
            Point(lows[x]),
            before[x],
            after[x],
            Point(wants[x]),
            begins[x],
            pairs[x],
            begins[x + 1],
            weights[x],
        );
    }
}

// By the table, node x's rows at most: those that are kept, and 32 in each new set.
fn rows_in(table: &[u32], x: u8) -> u32
    requires { Sized table.now x }
    ensures { result ≡ rows_in table.now x }
{
    let at = (x as usize) * NODE_WORDS;
    let kept = table[at + 6].saturating_sub(table[at + 5]);
    let sets = table[at + 3].saturating_sub(table[at + 2]);
    kept + MOST_ROWS * sets
}

// By the table, the nodes of node x's tree that aren't "previous".
fn weight_in(table: &[u32], x: u8) -> u32
    requires { x * node_words + node_words ≤ length table.now }
    ensures { result ≡ weight_in table.now x }
{
    let at = (x as usize) * NODE_WORDS;
    table[at + 8]
}

// What the tree of node x needs that has one child, from what the child's tree needs.
fn need_of_one(table: &[u32], needs: &[u32], x: u8, a: u8) -> u32
    requires { Sized table.now x × Sized table.now a × (a < length needs.now) }
    ensures { result ≡ max (get_or needs.now a 0) (rows_in table.now a + rows_in table.now x) }
{
    let own = rows_in(table, x);
    let held = rows_in(table, a);
    needs[a as usize].max(held + own)
}

// What the tree of node x needs whose children are walked in this order.
fn need_in_order(table: &[u32], needs: &[u32], x: u8, first: u8, second: u8) -> u32
    requires { Sized table.now x × Sized table.now first × Sized table.now second × (first < length needs.now) × (second < length needs.now) × (get_or needs.now second 0 ≤ 143360) }
    ensures { result ≡ need_of_two [] (rows_in table.now) (λ y. get_or needs.now y 0) x first second }
{
    let own = rows_in(table, x);
    let held = rows_in(table, first);
    let other = rows_in(table, second);
    let walking = held + needs[second as usize];
    needs[first as usize].max(walking.max(held + other + own))
}

// The same with the heavier child first, the left where both are as heavy.
fn need_of_two(table: &[u32], needs: &[u32], x: u8, a: u8, b: u8) -> u32
    requires { Sized table.now x × Sized table.now a × Sized table.now b × (a < length needs.now) × (b < length needs.now) × (get_or needs.now a 0 ≤ 143360) × (get_or needs.now b 0 ≤ 143360) }
    ensures { result ≡ need_of_two [] (rows_in table.now) (λ y. get_or needs.now y 0) x (cond (ltb (weight_in table.now a) (weight_in table.now b)) b a) (cond (ltb (weight_in table.now a) (weight_in table.now b)) a b) }
{
    if weight_in(table, a) < weight_in(table, b) {
        need_in_order(table, needs, x, b, a)
    } else {
        need_in_order(table, needs, x, a, b)
    }
}

// What node x's tree needs, from what the lower nodes' trees need.
fn need_at(rule: &[u8], table: &[u32], needs: &[u32], x: u8) -> u32
    requires { ((a : Accepted) × (checking rule.now ≡ given a)) × Weighty rule.now table.now × (x < node_count rule.now) × (node_count rule.now ≤ length needs.now) × ((y : ℕ) → y < x → get_or needs.now y 0 ≡ need rule.now (rows_in table.now) y) }
    ensures { result ≡ need rule.now (rows_in table.now) x }
{
    let children = rulenodes::children_at(rule, x);
    match children {
        Children::None => rows_in(table, x),
        Children::One(a) => need_of_one(table, needs, x, a),
        Children::Two(a, b) => need_of_two(table, needs, x, a, b),
    }
}

// How many rows the walk over the rule's tree needs room for.
pub fn rows_needed(rule: &[u8], table: &[u32]) -> u32
    requires { ((a : Accepted) × (checking rule.now ≡ given a)) × Weighty rule.now table.now }
    ensures { result ≡ need rule.now (rows_in table.now) (last_node rule.now) }
{
    let mut needs = [0u32; MOST_NODES];
    let n = rule[2];
    for x in 0..n {
        needs[x as usize] = need_at(rule, table, &needs, x);
    }
    let last = (n - 1) as usize;
    needs[last]
}

// The figures of a call with the words of what is fed, from how many points each node has settled before it, and how many rows it needs: `counts` has a word for each node.
pub fn call_table(
    rule: &[u8],
    log: LogEnd,
    times: &[u32],
    event: &[u32],
    masks: &[u8],
    counts: &[u32],
    lows: &[u32],
    begins: &[u32],
    pairs: &[u32],
    stamps: &mut [u32],
    after: &mut [u32],
    table: &mut [u32],
) -> u32
    requires counting { Counting (bare rule.now log times.now) counts.now }
    requires event_nonzero { (0 < length event.now) × (most_nodes ≤ length masks.now) × (most_nodes ≤ length lows.now) × (most_nodes + 1 ≤ length begins.now) × (most_nodes ≤ length pairs.now) × (time_words ≤ length stamps.old) × (most_nodes ≤ length after.old) × (most_nodes * node_words ≤ length table.old) }
    requires by_index { (x : ℕ) → x < node_count rule.now → get_or pairs.now x 0 - get_or begins.now x 0 ≤ most_kept }
    ensures { CallTable (bare rule.now log times.now) event.now masks.now counts.now lows.now begins.now pairs.now stamps.new after.new table.new result }
{
    let mut wants = [0u32; MOST_NODES];
    let mut heavy = [0u32; MOST_NODES];
    figures(rule, log, times, counts, event, stamps, after, &mut wants);
    weights(rule, &mut heavy);
    let n = node_total(rule);
    fill_table(
        n, masks, lows, counts, after, &wants, begins, pairs, &heavy, table,
    );
    rows_needed(rule, table)
}
