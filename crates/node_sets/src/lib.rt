// A node's kept sets read from the entries, sets put in the place of others, and a node's sets and pairs put behind what is kept.
#![tactic(auto)]

ghost use Rattle.std.specs.Prelude.{ℕ, ◌+◌, ◌-◌, ◌*◌, ◌≤◌, ◌<◌, length, get_or};
ghost use Rattle.rowset.specs.Sets.{Run};
ghost use Rattle.kinds.specs.Kinds.{pairs_from};
ghost use Rattle.room.specs.Room.{set_at, SetsInOrder};
ghost use Rattle.node_sets.specs.NodeEntries.{set_entries, aged_entries, Spaces, NumbersWithin, Loaded};
ghost use Rattle.node_sets.specs.Blocks.{MovedDown, RoomToKeep, EntriesPut};
ghost use Rattle.node_sets.specs.Parts.{EndsMarked, MarksRaised, Moved, MarksLowered, PointsPut, Numbered};

use meaning::Point;

// Marks where each point's rows end, where those of the entries from cursor on begin at row `end`: for each entry the mark behind its point's set, that of point low being set `sets`, is the row behind its own. The last entry of a point stays.
fn mark_ends(
    numbers: &[u32],
    cursor: usize,
    count: usize,
    low: Point,
    at: &mut [u32],
    sets: usize,
    end: usize,
)
    requires { (cursor ≤ count) × (count ≤ length numbers.now) × NumbersWithin numbers.now cursor count low.0 (length at.old - 1 - sets) × (end + (count - cursor) < 4294967296) }
    ensures { EndsMarked numbers.now cursor count low.0 at.old at.new sets end }
{
    for i in cursor..count {
        let p = (numbers[i] - low.0) as usize;
        at[sets + p + 1] = (end + (i + 1 - cursor)) as u32;
    }
}

// Raises each of n marks behind mark `sets` to the highest before it.
fn raise_marks(at: &mut [u32], sets: usize, n: usize)
    requires { sets + n < length at.old }
    ensures { MarksRaised at.old at.new sets n }
{
    let mut m = at[sets];
    for k in 0..n {
        m = m.max(at[sets + k + 1]);
        at[sets + k + 1] = m;
    }
}

// Appends a node's sets at n points, from low on, behind `sets` others: the rows of its entries from cursor on before count, all at once, and a mark behind those of each point.
pub fn load_sets(
    numbers: &[u32],
    values: &[u32],
    cursor: usize,
    count: usize,
    low: Point,
    n: usize,
    rows: &mut [u32],
    at: &mut [u32],
    sets: usize,
)
    requires { (count ≤ length numbers.now) × Run values.now cursor count × Spaces rows.old at.old sets n (count - cursor) × NumbersWithin numbers.now cursor count low.0 n }
    ensures { Loaded numbers.now values.now cursor count low n rows.old at.old rows.new at.new sets }
{
    if n == 0 {
        return;
    }
    let end = at[sets] as usize;
    entries::copy_rows(values, cursor, count, rows, end);
    entries::fill(end as u32, n, at, sets + 1);
    mark_ends(numbers, cursor, count, low, at, sets, end);
    raise_marks(at, sets, n);
}

// Copies rows from..to to row end and on, which isn't behind them.
fn copy_down(rows: &mut [u32], from: usize, to: usize, end: usize)
    requires { Run rows.old from to × (end ≤ from) }
    ensures { Moved rows.old end rows.new from (to - from) }
{
    if end == from {
        return;
    }
    rows.copy_within(from * 4..to * 4, end * 4);
}

// Lowers the marks of m sets from set n + d on to set n.
fn lower_marks(at: &mut [u32], n: usize, d: usize, m: usize)
    requires { (n + d + m < length at.old) × (get_or at.old n 0 ≤ get_or at.old (n + d) 0) × ((k : ℕ) → k ≤ m → get_or at.old (n + d) 0 ≤ get_or at.old (n + d + k) 0) }
    ensures { MarksLowered at.old at.new n d m }
{
    let by = at[n + d] - at[n];
    for k in 0..m {
        at[n + k + 1] = at[n + d + k + 1] - by;
    }
}

// Puts the m sets from set n + d on in the place of set n and those behind it.
pub fn move_down(rows: &mut [u32], at: &mut [u32], n: usize, d: usize, m: usize)
    requires { SetsInOrder rows.old at.old (n + d + m) }
    ensures { MovedDown rows.old at.old rows.new at.new n d m }
{
    let end = at[n] as usize;
    let from = at[n + d] as usize;
    let to = at[n + d + m] as usize;
    copy_down(rows, from, to, end);
    lower_marks(at, n, d, m);
}

// Puts a number for each row of n sets from set q on at word `end` and on: for those of the first set the point `from`, for those of the next the point behind it, and so on.
fn put_points(at: &[u32], q: usize, n: usize, from: Point, numbers: &mut [u32], end: usize)
    requires { (q + n < length at.now) × ((s : ℕ) → s < q + n → get_or at.now s 0 ≤ get_or at.now (s + 1) 0) × (end + (get_or at.now (q + n) 0 - get_or at.now q 0) ≤ length numbers.old) × (from.0 + n < 4294967296) }
    ensures { PointsPut at.now q n from.0 numbers.old end numbers.new }
{
    if at[q] == at[q + n] {
        return;
    }
    let mut next = end;
    for k in 0..n {
        let count = (at[q + k + 1] - at[q + k]) as usize;
        entries::fill(from.0 + k as u32, count, numbers, next);
        next += count;
    }
}

// The same for a node's sets at n points from `from` on, where set `first` is the one at point low: the numbers of those before point `before` stand in `numbers` from word begin on, from point low's on.
fn put_numbers(
    at: &[u32],
    first: usize,
    low: Point,
    from: Point,
    n: usize,
    numbers: &[u32],
    begin: usize,
    before: Point,
    out_numbers: &mut [u32],
    end: usize,
)
    requires { (low.0 ≤ from.0) × (first + (from.0 - low.0) + n < length at.now) × ((s : ℕ) → s < first + (from.0 - low.0) + n → get_or at.now s 0 ≤ get_or at.now (s + 1) 0) × (end + (get_or at.now (first + (from.0 - low.0) + n) 0 - get_or at.now (first + (from.0 - low.0)) 0) ≤ length out_numbers.old) × (from.0 + n < 4294967296) × (before.0 ≤ from.0 + n) × Numbered at.now first (before.0 - low.0) low.0 numbers.now begin }
    ensures { PointsPut at.now (first + (from.0 - low.0)) n from.0 out_numbers.old end out_numbers.new }
{
    let q = first + (from.0 - low.0) as usize;
    if before.0 <= from.0 {
        put_points(at, q, n, from, out_numbers, end);
        return;
    }
    let m = (before.0 - from.0) as usize;
    let count = (at[q + m] - at[q]) as usize;
    let start = begin + (at[q] - at[first]) as usize;
    let stop = start + count;
    entries::copy_words(&numbers[start..stop], count, out_numbers, end);
    put_points(at, q + m, n - m, before, out_numbers, end + count);
}

// Puts the rows of a node's sets at n points from `from` on behind the kept entries, with their points as numbers, where there is room for all; how many entries are then kept, or one more than there is room for. Set `first` is the one at point low; the sets before point `before` were loaded from entries, whose numbers stand from word begin on.
pub fn keep_sets(
    rows: &[u32],
    at: &[u32],
    first: usize,
    low: Point,
    from: Point,
    n: usize,
    out_numbers: &mut [u32],
    out_values: &mut [u32],
    kept: usize,
    numbers: &[u32],
    begin: usize,
    before: Point,
) -> usize
    requires { (low.0 ≤ from.0) × SetsInOrder rows.now at.now (first + (from.0 + n - low.0)) × (from.0 + n < 4294967296) × RoomToKeep out_numbers.old out_values.old kept × (before.0 ≤ from.0 + n) × Numbered at.now first (before.0 - low.0) low.0 numbers.now begin }
    ensures { (x : ℕ) → EntriesPut x 0 out_numbers.old out_values.old out_numbers.new out_values.new kept result (set_entries x (set_at rows.now at.now first low) from n) }
{
    if n == 0 {
        return kept;
    }
    let q = first + (from.0 - low.0) as usize;
    let start = at[q] as usize;
    let end = at[q + n] as usize;
    let count = end - start;
    let most = out_numbers.len();
    if most < kept + count {
        return most + 1;
    }
    entries::copy_rows(rows, start, end, out_values, kept);
    put_numbers(
        at,
        first,
        low,
        from,
        n,
        numbers,
        begin,
        before,
        out_numbers,
        kept,
    );
    kept + count
}

// Puts pairs, each an age and a row, behind the kept entries with their ages as numbers, in the same way.
pub fn keep_pairs(
    ages: &[u32],
    values: &[u32],
    out_numbers: &mut [u32],
    out_values: &mut [u32],
    kept: usize,
) -> usize
    requires { (length ages.now * 4 ≤ length values.now) × RoomToKeep out_numbers.old out_values.old kept }
    ensures { (x : ℕ) → EntriesPut x 1 out_numbers.old out_values.old out_numbers.new out_values.new kept result (aged_entries x (pairs_from ages.now values.now 0 (length ages.now))) }
{
    let n = ages.len();
    let most = out_numbers.len();
    if most < kept + n {
        return most + 1;
    }
    entries::copy_words(ages, n, out_numbers, kept);
    entries::copy_rows(values, 0, n, out_values, kept);
    kept + n
}
