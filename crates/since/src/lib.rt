// The since kinds at a newly settled point, straight from their definition: right's rows from the first newly settled point on, and the pairs that were held before it. `lowest` is the node's lowest free variable, by which its set and its pairs are in order.
#![tactic(auto)]

ghost use Rattle.std.specs.Prelude.{suc, ◌+◌, ◌-◌, ◌≤◌, ◌<◌, min, ◌≡◌, true, cond, ◌&&◌, [], ◌∷◌, map, length, ltb, leb};
ghost use Rattle.meaning.specs.Lists.{select};
ghost use Rattle.meaning.specs.Evaluator.{set_of};
ghost use Rattle.meaning.specs.Kept.{below_end, counted_age};
ghost use Rattle.rowset.specs.Rows.{words_of, rows_from};
ghost use Rattle.rowset.specs.Sets.{Run, SetRoom, Added, SetMade, from_front};
ghost use Rattle.kinds.specs.Kinds.{PairsThere};
ghost use Rattle.room.specs.Room.{sets_of};
ghost use Rattle.progress.specs.Stamps.{stamps_of};
ghost use Rattle.untils.specs.Until.{BothStand};
ghost use Rattle.untils.specs.Leads.{leads_of, test_of};
ghost use Rattle.pairs.specs.Pairs.{PairRoom, PairsAdded};
ghost use Rattle.since.specs.Parts.{fresh_rows, fresh_pairs, grown_by, older_rows, older_pairs, below_of, most_of};
ghost use Rattle.since.specs.Since.{pairs_held, Ascends, rows_in, pairs_in, AgeRun, RowsPut, PairsPut};

pub mod held;

pub use held::Held;
use meaning::{Left, Point, Window};
use progress::Retained;
use room::{CallSets, Operands, Part};
use rowset::{Gathered, Row};
use untils::{Asks, Lead};

// A window's bounds: an age is in it from `from` on and below `below`, and counts as at most `most`.
#[derive(Clone, Copy)]
struct Bounds {
    from: u64,
    below: u64,
    most: u32,
}

// The bounds of a window. Where it has no end, an age is below what every sum of two words is below.
fn bounds_of(w: Window) -> Bounds
    ensures { (result.from ≡ w.start) × (result.below ≡ below_of w) × (result.most ≡ most_of w) }
{
    let from = u64::from(w.start);
    if w.end == 0 {
        return Bounds {
            from,
            below: 8589934592,
            most: w.start,
        };
    }
    Bounds {
        from,
        below: u64::from(w.end),
        most: w.end,
    }
}

// The age is within the bounds.
fn within(b: Bounds, age: u64) -> bool
    ensures { result ≡ (leb b.from age && ltb age b.below) }
{
    b.from <= age && age < b.below
}

// How much older the pairs held at the point before start are at point i: where start is the first point there are none.
fn grown_by(retained: Retained, start: Point, i: Point) -> u32
    ensures { result ≡ grown_by (stamps_of retained.entry) start i }
{
    if start.0 == 0 {
        return 0;
    }
    let before = retained.time(Point(start.0 - 1));
    let here = retained.time(i);
    untils::elapsed(before, here)
}

// The rows at point i that right's rows from point start on give, put into an empty set, the last point first.
fn put_fresh(
    asks: Asks,
    of: &Operands,
    sets: CallSets,
    retained: Retained,
    start: Point,
    i: Point,
    out: &mut [u32],
) -> usize
    requires stand { BothStand sets of.now start (i.0 + 1) }
    requires set_room { SetRoom out.old 0 }
    ensures { Added of.now.lowest out.old 0 out.new result (fresh_rows (stamps_of retained.entry) asks.window (test_of asks.left of.now sets.entry) (sets_of sets.entry of.now.right) start i) }
{
    let here = retained.time(i);
    let end = Point(i.0 + 1);
    let mut k = 0;
    for j in (start.0..end.0).rev() {
        if !untils::due(asks.window, retained.time(Point(j)), here) {
            continue;
        }
        let rows = sets.part(&of.right, Point(j));
        let after = Point(j + 1);
        let lead = Lead {
            left: asks.left,
            a: of.left,
            sets,
            from: after,
            end,
        };
        k = untils::put_leading(of.lowest, &lead, rows, out, k);
    }
    k
}

// Of the pairs from..to, the first of those at the end that have one age.
fn age_start(ages: &[u32], from: usize, to: usize) -> usize
    requires { (from < to) × (to ≤ length ages.now) }
    ensures { AgeRun ages.now from to result }
{
    let age = ages[to - 1];
    for x in (from + 1..to).rev() {
        if ages[x - 1] != age {
            return x;
        }
    }
    from
}

// Puts in the rows of pairs from..to, the oldest pairs first, those of one age in order: blocks that are read in turn then come in order, and so do those that are read at once, and each is looked for near the last.
fn put_run(lowest: u32, held: Held, from: usize, to: usize, out: &mut [u32], n: usize) -> usize
    requires run { Run held.values.now from to × (to ≤ length held.ages.now) }
    requires set_room { SetRoom out.old n }
    ensures { RowsPut lowest out.old n out.new result (rows_from held.entry.values.now from (to - from)) }
{
    let mut set = Gathered { count: n, near: 0 };
    let mut x = to;
    // It goes down by all pairs of one age and not by one, so that no range gives its places.
    while from < x {
        let first = age_start(held.ages, from, x);
        set = rowset::add_rows(lowest, held.values, first, x, out, set);
        x = first;
    }
    set.count
}

// Puts in the rows of the held pairs whose ages are in the window, with what they have grown by: as ages don't fall, these pairs are a run.
fn put_aged(lowest: u32, w: Window, by: u32, held: Held, out: &mut [u32], n: usize) -> usize
    requires ascends { Ascends lowest held }
    requires set_room { SetRoom out.old n }
    ensures { RowsPut lowest out.old n out.new result (older_rows w by (λ _. true) (pairs_held held.entry)) }
{
    let bounds = bounds_of(w);
    let to = pairs::count_below(held.ages, held.ages.len(), by, bounds.below);
    let from = pairs::count_below(held.ages, to, by, bounds.from);
    put_run(lowest, held, from, to, out, n)
}

// The age is in the window, and left passes for the row.
fn stays(b: Bounds, age: u64, lead: &Lead, u: Row) -> bool
    ensures { result ≡ ((leb b.from age && ltb age b.below) && (leads_of lead.now) (words_of u)) }
{
    within(b, age) && lead.passes(u)
}

// Puts in the rows of the held pairs as `put_aged` does, where left passes too.
fn put_older(
    lowest: u32,
    w: Window,
    lead: &Lead,
    by: u32,
    held: Held,
    out: &mut [u32],
    n: usize,
) -> usize
    requires { SetRoom out.old n }
    ensures { RowsPut lowest out.old n out.new result (older_rows w by (leads_of lead.now) (pairs_held held.entry)) }
{
    let bounds = bounds_of(w);
    let mut set = Gathered { count: n, near: 0 };
    for x in 0..held.ages.len() {
        let r = rowset::row_at(held.values, x);
        let age = u64::from(held.ages[x]) + u64::from(by);
        let ok = stays(bounds, age, lead, r);
        set = rowset::add_if(ok, lowest, out, set, r);
    }
    set.count
}

// The rows at point i, put into an empty set. Where nothing is asked of left, right may be given for left.
pub fn rows_at(
    asks: Asks,
    of: &Operands,
    sets: CallSets,
    retained: Retained,
    held: Held,
    i: Point,
    out: &mut [u32],
) -> usize
    requires stand { BothStand sets of.now held.start (i.0 + 1) }
    requires ascends { Ascends of.now.lowest held }
    requires set_room { SetRoom out.old 0 }
    ensures { SetMade out.new result (set_of of.now.lowest (rows_in asks.left sets.entry.rows.now sets.entry.at.now retained.entry.times.now retained.entry.base asks.window of.now.left of.now.right (pairs_held held.entry) held.entry.start i)) }
{
    let by = grown_by(retained, held.start, i);
    let n = put_fresh(asks, of, sets, retained, held.start, i, out);
    match asks.left {
        Left::Always => put_aged(of.lowest, asks.window, by, held, out, n),
        _ => {
            let lead = Lead {
                left: asks.left,
                a: of.left,
                sets,
                from: held.start,
                end: Point(i.0 + 1),
            };
            put_older(of.lowest, asks.window, &lead, by, held, out, n)
        }
    }
}

// Puts in a pair at the age for each of some rows for which left passes.
fn add_lasting(
    lowest: u32,
    lead: &Lead,
    rows: Part,
    age: u32,
    ages: &mut [u32],
    values: &mut [u32],
    set: Gathered,
) -> Gathered
    requires run { Run lead.now.sets.rows.now rows.from rows.to }
    requires pair_room { PairRoom lowest ages.old values.old set }
    ensures { PairsAdded lowest ages.old values.old set ages.new values.new result (map (λ u. age ∷ u) (select (leads_of lead.now) (rows_from lead.now.sets.rows.now rows.from (rows.to - rows.from)))) }
{
    let mut g = set;
    for x in rows.from..rows.to {
        let r = rowset::row_at(lead.sets.rows, x);
        let ok = lead.passes(r);
        g = pairs::add_if(ok, lowest, ages, values, g, age, r);
    }
    g
}

// The same, with no row tested where nothing is asked of left.
fn add_point(
    lowest: u32,
    lead: &Lead,
    rows: Part,
    age: u32,
    ages: &mut [u32],
    values: &mut [u32],
    set: Gathered,
) -> Gathered
    requires run { Run lead.now.sets.rows.now rows.from rows.to }
    requires pair_room { PairRoom lowest ages.old values.old set }
    ensures { PairsAdded lowest ages.old values.old set ages.new values.new result (map (λ u. age ∷ u) (select (leads_of lead.now) (rows_from lead.now.sets.rows.now rows.from (rows.to - rows.from)))) }
{
    match lead.left {
        Left::Always => pairs::add_young(
            lowest,
            lead.sets.rows,
            rows.from,
            rows.to,
            age,
            ages,
            values,
            set,
        ),
        _ => add_lasting(lowest, lead, rows, age, ages, values, set),
    }
}

// The pairs at point i that right's rows from point start on give, put into none, the last point first.
fn add_fresh(
    asks: Asks,
    of: &Operands,
    sets: CallSets,
    retained: Retained,
    start: Point,
    i: Point,
    ages: &mut [u32],
    values: &mut [u32],
) -> Gathered
    requires stand { BothStand sets of.now start (i.0 + 1) }
    requires pair_room { PairRoom of.now.lowest ages.old values.old (from_front 0) }
    ensures { PairsAdded of.now.lowest ages.old values.old (from_front 0) ages.new values.new result (fresh_pairs (stamps_of retained.entry) asks.window (test_of asks.left of.now sets.entry) (sets_of sets.entry of.now.right) start i) }
{
    let here = retained.time(i);
    let end = Point(i.0 + 1);
    let bounds = bounds_of(asks.window);
    let mut g = Gathered { count: 0, near: 0 };
    for j in (start.0..end.0).rev() {
        let age = u64::from(untils::elapsed(retained.time(Point(j)), here));
        if bounds.below <= age {
            continue;
        }
        let counted = pairs::at_most(bounds.most, age);
        let rows = sets.part(&of.right, Point(j));
        let lead = Lead {
            left: asks.left,
            a: of.left,
            sets,
            from: Point(j + 1),
            end,
        };
        g = add_point(of.lowest, &lead, rows, counted, ages, values, g);
    }
    g
}

// Puts a held pair in at the age that it has now, where it is before the window's end.
fn add_aged(
    lowest: u32,
    bounds: Bounds,
    age: u64,
    r: Row,
    ages: &mut [u32],
    values: &mut [u32],
    set: Gathered,
) -> Gathered
    requires { PairRoom lowest ages.old values.old set }
    ensures { PairsAdded lowest ages.old values.old set ages.new values.new result (cond (ltb age bounds.below) ((min age bounds.most ∷ words_of r) ∷ []) []) }
{
    if age < bounds.below {
        return pairs::add(
            lowest,
            ages,
            values,
            set,
            pairs::at_most(bounds.most, age),
            r,
        );
    }
    set
}

// Puts the held pairs in, each grown older, where nothing is asked of left: as ages don't fall, those before the window's end are the first.
fn add_all_aged(
    lowest: u32,
    w: Window,
    by: u32,
    held: Held,
    ages: &mut [u32],
    values: &mut [u32],
    set: Gathered,
) -> Gathered
    requires ascends { Ascends lowest held }
    requires pair_room { PairRoom lowest ages.old values.old set }
    ensures { PairsAdded lowest ages.old values.old set ages.new values.new result (older_pairs w by (λ _. true) (pairs_held held.entry)) }
{
    let bounds = bounds_of(w);
    let m = pairs::count_below(held.ages, held.ages.len(), by, bounds.below);
    pairs::add_grown(
        lowest,
        held.ages,
        held.values,
        m,
        by,
        bounds.most,
        ages,
        values,
        set,
    )
}

// Puts a held pair in as `add_aged` does, where left passes too for its row.
fn add_older(
    lowest: u32,
    bounds: Bounds,
    age: u64,
    lead: &Lead,
    r: Row,
    ages: &mut [u32],
    values: &mut [u32],
    set: Gathered,
) -> Gathered
    requires { PairRoom lowest ages.old values.old set }
    ensures { PairsAdded lowest ages.old values.old set ages.new values.new result (cond (ltb age bounds.below && (leads_of lead.now) (words_of r)) ((min age bounds.most ∷ words_of r) ∷ []) []) }
{
    if lead.passes(r) {
        return add_aged(lowest, bounds, age, r, ages, values, set);
    }
    set
}

// Puts the held pairs in, each grown older, where left passes.
fn add_all_older(
    lowest: u32,
    w: Window,
    lead: &Lead,
    by: u32,
    held: Held,
    ages: &mut [u32],
    values: &mut [u32],
    set: Gathered,
) -> Gathered
    requires { PairRoom lowest ages.old values.old set }
    ensures { PairsAdded lowest ages.old values.old set ages.new values.new result (older_pairs w by (leads_of lead.now) (pairs_held held.entry)) }
{
    let bounds = bounds_of(w);
    let mut g = set;
    for x in 0..held.ages.len() {
        let r = rowset::row_at(held.values, x);
        let age = u64::from(held.ages[x]) + u64::from(by);
        g = add_older(lowest, bounds, age, lead, r, ages, values, g);
    }
    g
}

// The pairs at point i, put to the front of ages and values, as many as the ages have room for; one more than that where there are more.
pub fn pairs_at(
    asks: Asks,
    of: &Operands,
    sets: CallSets,
    retained: Retained,
    held: Held,
    i: Point,
    ages: &mut [u32],
    values: &mut [u32],
) -> usize
    requires stand { BothStand sets of.now held.start (i.0 + 1) }
    requires ascends { Ascends of.now.lowest held }
    requires pairs_there { PairsThere ages.old values.old (length ages.old) }
    ensures { PairsPut ages.old values.old ages.new values.new result (set_of (suc of.now.lowest) (pairs_in asks.left sets.entry.rows.now sets.entry.at.now retained.entry.times.now retained.entry.base asks.window of.now.left of.now.right (pairs_held held.entry) held.entry.start i)) }
{
    let by = grown_by(retained, held.start, i);
    let set = add_fresh(asks, of, sets, retained, held.start, i, ages, values);
    let all = match asks.left {
        Left::Always => add_all_aged(of.lowest, asks.window, by, held, ages, values, set),
        _ => {
            let lead = Lead {
                left: asks.left,
                a: of.left,
                sets,
                from: held.start,
                end: Point(i.0 + 1),
            };
            add_all_older(of.lowest, asks.window, &lead, by, held, ages, values, set)
        }
    };
    all.count
}
