// Whether what is stored is well formed.
#![tactic(auto)]

ghost use Rattle.std.specs.Prelude.{◌≡◌, true, ◌&&◌, ◌||◌, [], ◌∷◌, ◌++◌, ℕ, suc, ◌+◌, ◌-◌, ◌*◌, ◌≤◌, ◌<◌, length, get_or, drop, leb, eqb};
ghost use Rattle.meaning.specs.Outcome.{given, most_points, most_kept};
ghost use Rattle.meaning.specs.View.{view_of};
ghost use Rattle.meaning.specs.RuleFile.{Accepted, checking, is_accepted, node_count, node_at};
ghost use Rattle.meaning.specs.Log.{point};
ghost use Rattle.meaning.specs.Order.{before};
ghost use Rattle.meaning.specs.Formula.{lowest_of};
ghost use Rattle.method.specs.Stored.{least_of, first_retained};
ghost use Rattle.method.specs.Step.{wanted_from};
ghost use Rattle.method.specs.WellFormed.{most_times, not_falling, pairs_fit, well_formed};
ghost use Rattle.progress.specs.Bounds.{Within};
ghost use Rattle.rowset.specs.Rows.{words_of};
ghost use Rattle.kinds.specs.Kinds.{in_mask, pair_at, pairs_from};
ghost use Rattle.entries.specs.Entries.{entries_from, EntriesWithin};
ghost use Rattle.formed.specs.StateFigures.{stored_in, StateFigures, EntryPlaces};
ghost use Rattle.formed.specs.Parts.{CountsStand, times_fit, kept_fit};
ghost use Rattle.formed.specs.Walk.{entries_fit};
ghost use Rattle.formed.specs.Tests.{Tells, MaskOf, row_cut, most_of, row_under, joined_bits, joint_at, Rising, FewAlike, SetsFit, age_fits, aged_fit};
ghost use Rattle.formed.specs.Steps.{NodeEnded, EntriesPlaced};

use meaning::{
    LogEnd, MOST_KEPT, MOST_NODES, MOST_OPEN, MOST_POINTS, MOST_ROWS, MOST_TIMES, Point, Stamp,
    Times, Window,
};
use progress::Retained;
use rowset::Row;

// The largest word.
const LARGEST: u32 = 4294967295;

// Where a node's pairs begin, and the entry behind them.
#[derive(Clone, Copy)]
pub struct Ends {
    pub pairs: usize,
    pub end: usize,
}

// The largest value of each variable that a mask leaves: 0 where the mask doesn't have it.
fn most_of(mask: u8) -> Row
    ensures { result ≡ most_of mask }
{
    let m = mask as u32;
    Row {
        v0: m / 1 % 2 * LARGEST,
        v1: m / 2 % 2 * LARGEST,
        v2: m / 4 % 2 * LARGEST,
        v3: m / 8 % 2 * LARGEST,
    }
}

// No variable of the row is above its largest value.
fn is_under(most: Row, u: Row) -> bool
    ensures { result ≡ row_under most (words_of u) }
{
    u.v0 <= most.v0 && u.v1 <= most.v1 && u.v2 <= most.v2 && u.v3 <= most.v3
}

// The bits of two rows, word by word.
fn joined(x: Row, y: Row) -> Row
    ensures { result ≡ joined_bits x y }
{
    Row {
        v0: x.v0 | y.v0,
        v1: x.v1 | y.v1,
        v2: x.v2 | y.v2,
        v3: x.v3 | y.v3,
    }
}

// Entry i of a node with this lowest free variable stands behind the one before it, by its number and then by its row.
fn is_behind(lowest: u32, numbers: &[u32], values: &[u32], i: usize) -> bool
    requires { (0 < i) × (i < length numbers.now) × (i * 4 + 4 ≤ length values.now) }
    ensures { result ≡ before (suc lowest) (pair_at numbers.now values.now (i - 1)) (pair_at numbers.now values.now i) }
{
    pairs::pair_before(
        lowest,
        numbers[i - 1],
        rowset::row_at(values, i - 1),
        numbers[i],
        rowset::row_at(values, i),
    )
}

// Entry i stands behind the one before it, where `last` and `here` are their joined numbers: mostly these tell.
fn follows(last: u64, here: u64, lowest: u32, numbers: &[u32], values: &[u32], i: usize) -> bool
    requires i_nonzero { (0 < i) × (i < length numbers.now) × (i * 4 + 4 ≤ length values.now) }
    requires last_value { (last ≡ joint_at numbers.now values.now (i - 1)) × (here ≡ joint_at numbers.now values.now i) }
    ensures { result ≡ before (suc lowest) (pair_at numbers.now values.now (i - 1)) (pair_at numbers.now values.now i) }
{
    last < here || is_behind(lowest, numbers, values, i)
}

// Entries from..to, of which there is one, ascend by number and then by row, and their rows are 0 at variables that the mask doesn't have: the bits of all rows are gathered in the same loop, and compared with the largest that the mask leaves once.
fn rows_ascend(numbers: &[u32], values: &[u32], from: usize, to: usize, mask: u8) -> bool
    requires { (from < to) × (to ≤ length numbers.now) × (to * 4 ≤ length values.now) }
    ensures { Tells result (Rising (suc (lowest_of (in_mask mask))) (pair_at numbers.now values.now) (λ p. row_cut mask (drop 1 p)) from to) }
{
    let lowest = kinds::lowest_of(mask);
    let mut bits = rowset::row_at(values, from);
    let mut last = pairs::joint(numbers[from], bits.v0);
    for i in from + 1..to {
        let row = rowset::row_at(values, i);
        let here = pairs::joint(numbers[i], row.v0);
        if !follows(last, here, lowest, numbers, values, i) {
            return false;
        }
        bits = joined(bits, row);
        last = here;
    }
    is_under(most_of(mask), bits)
}

// Of entries from..to, which ascend, no more than a point may have rows have one number: none has that of the one so many before it. The loop has one way out, so that several are compared at once.
fn few_alike(numbers: &[u32], from: usize, to: usize) -> bool
    requires { (from ≤ to) × (to ≤ length numbers.now) }
    ensures { Tells result (FewAlike numbers.now from to) }
{
    let most = MOST_ROWS as usize;
    if to - from <= most {
        return true;
    }
    let mut alike = false;
    for i in from + most..to {
        alike |= numbers[i] == numbers[i - most];
    }
    !alike
}

// Entries from..to are a node's rows at points from low on and before end, where the mask has its free variables.
fn sets_fit(
    numbers: &[u32],
    values: &[u32],
    from: usize,
    to: usize,
    low: Point,
    end: Point,
    mask: u8,
) -> bool
    requires { (from ≤ to) × (to ≤ length numbers.now) × (to * 4 ≤ length values.now) }
    ensures { Tells result (SetsFit numbers.now values.now from to low end mask) }
{
    if from == to {
        return true;
    }
    if numbers[from] < low.0 {
        return false;
    }
    if end.0 <= numbers[to - 1] {
        return false;
    }
    rows_ascend(numbers, values, from, to, mask) && few_alike(numbers, from, to)
}

// The largest age that fits the window: the last before its end, and where there is no end its start.
fn oldest(w: Window) -> u32
    ensures { (age : ℕ) → leb age result ≡ age_fits w age }
{
    if w.end == 0 { w.start } else { w.end - 1 }
}

// Pairs from..to, of which there is one, ascend, and fit the window and the mask: the last is the oldest.
fn aged_fit(numbers: &[u32], values: &[u32], from: usize, to: usize, mask: u8, w: Window) -> bool
    requires { (from < to) × (to ≤ length numbers.now) × (to * 4 ≤ length values.now) }
    ensures { result ≡ aged_fit mask w (pairs_from numbers.now values.now from (to - from)) }
{
    numbers[to - 1] <= oldest(w) && rows_ascend(numbers, values, from, to, mask)
}

// Pairs from..to, of which there is one, are node x's: only kinds 9, 10 and 13 have any.
fn kind_fits(
    rule: &[u8],
    x: u8,
    numbers: &[u32],
    values: &[u32],
    from: usize,
    to: usize,
    mask: u8,
) -> bool
    requires rule_len { (length rule.now ≡ 12 + 20 * node_count rule.now) × (x < node_count rule.now) × MaskOf rule.now x mask }
    requires from_lt_to { (from < to) × (to ≤ length numbers.now) × (to * 4 ≤ length values.now) }
    ensures { result ≡ pairs_fit rule.now x (view_of (node_at rule.now x)) (pairs_from numbers.now values.now from (to - from)) }
{
    let Times::Past = rulenodes::times_at(rule, x) else {
        return false;
    };
    let body = rulenodes::body_of(rule, x);
    let w = Window {
        start: body.word0,
        end: body.word1,
    };
    aged_fit(numbers, values, from, to, mask, w)
}

// The same, where mostly there are none.
fn pairs_fit(
    rule: &[u8],
    x: u8,
    numbers: &[u32],
    values: &[u32],
    from: usize,
    to: usize,
    mask: u8,
) -> bool
    requires rule_len { (length rule.now ≡ 12 + 20 * node_count rule.now) × (x < node_count rule.now) × MaskOf rule.now x mask }
    requires from_le_to { (from ≤ to) × (to ≤ length numbers.now) × (to * 4 ≤ length values.now) }
    ensures { result ≡ pairs_fit rule.now x (view_of (node_at rule.now x)) (pairs_from numbers.now values.now from (to - from)) }
{
    from == to || kind_fits(rule, x, numbers, values, from, to, mask)
}

// Finds all entries of node x at the cursor, and tests them: its rows at points from low on and before end, and its pairs.
fn node_end(
    rule: &[u8],
    x: u8,
    owners: &[u32],
    numbers: &[u32],
    values: &[u32],
    cursor: usize,
    count: usize,
    low: Point,
    end: Point,
    mask: u8,
) -> Option<Ends>
    requires rule_len { (length rule.now ≡ 12 + 20 * node_count rule.now) × (x < node_count rule.now) × MaskOf rule.now x mask }
    requires cursor_le_count { (cursor ≤ count) × EntriesWithin owners.now numbers.now values.now count }
    ensures { NodeEnded owners.now numbers.now values.now count cursor rule.now x low (end.0 - low.0) result }
{
    let owner = (x as u32) * 2;
    let first = entries::run_end(owners, cursor, count, owner);
    let to = entries::run_end(owners, first, count, owner + 1);
    if !sets_fit(numbers, values, cursor, first, low, end, mask) {
        return None;
    }
    if !pairs_fit(rule, x, numbers, values, first, to, mask) {
        return None;
    }
    Some(Ends {
        pairs: first,
        end: to,
    })
}

// Whether the entries are those of the nodes in turn, from each node's first kept point on and before its first unsettled one, and fit them. Where they are, begins and pairs say where each node's begin, and its pairs.
fn entries_fit(
    rule: &[u8],
    owners: &[u32],
    numbers: &[u32],
    values: &[u32],
    count: usize,
    masks: &[u8],
    counts: &[u32],
    lows: &[u32],
    begins: &mut [u32],
    pairs: &mut [u32],
) -> bool
    requires rule_len { (length rule.now ≡ 12 + 20 * node_count rule.now) × EntriesWithin owners.now numbers.now values.now count × (count ≤ most_kept) }
    requires rule_in_bounds { (node_count rule.now ≤ length masks.now) × (node_count rule.now ≤ length counts.now) × (node_count rule.now ≤ length lows.now) × ((x : ℕ) → x < node_count rule.now → MaskOf rule.now x (get_or masks.now x 0)) }
    requires rule_in_bounds_2 { (node_count rule.now < length begins.old) × (node_count rule.now ≤ length pairs.old) }
    ensures answer { result ≡ entries_fit rule.now (λ y. point (get_or lows.now y 0)) (λ y. get_or counts.now y 0) (entries_from owners.now numbers.now values.now 0 count) (node_count rule.now) }
    ensures placed { result ≡ true → EntriesPlaced owners.now numbers.now values.now count (λ y. point (get_or lows.now y 0)) (λ y. get_or counts.now y 0) (node_count rule.now) begins.new pairs.new }
{
    let mut next = 0;
    begins[0] = 0;
    for x in 0..rule[2] {
        let k = x as usize;
        let Some(ends) = node_end(
            rule,
            x,
            owners,
            numbers,
            values,
            next,
            count,
            Point(lows[k]),
            Point(counts[k]),
            masks[k],
        ) else {
            return false;
        };
        pairs[k] = ends.pairs as u32;
        begins[k + 1] = ends.end as u32;
        next = ends.end;
    }
    next == count
}

// The least of the counts and the number of points.
fn least(points: u32, counts: &[u32]) -> u32
    ensures { result ≡ least_of points counts.now }
{
    counts.iter().fold(points, |m, c| m.min(*c))
}

// The first point whose time is retained, from the counts of settled points.
pub fn first_retained(points: u32, counts: &[u32]) -> Point
    ensures { result ≡ first_retained points counts.now }
{
    Point(least(points, counts).saturating_sub(1))
}

// No time is below the one before it.
fn not_falling(times: &[u32]) -> bool
    ensures { result ≡ not_falling times.now }
{
    times.is_sorted()
}

// The last of the times, 0 where there is none.
fn last_time(times: &[u32]) -> u32
    ensures { result ≡ get_or times.now (length times.now - 1) 0 }
{
    times.last().map_or(0, |t| *t)
}

// The times don't fall, and the latest known time isn't below the last of them.
fn latest_last(times: &[u32], latest: Stamp) -> bool
    ensures { result ≡ not_falling (times.now ++ latest.0 ∷ []) }
{
    not_falling(times) && last_time(times) <= latest.0
}

// As many times are retained as the counts of settled points ask, and they don't fall, nor does the latest known time.
fn times_asked(log: LogEnd, times: &[u32], counts: &[u32]) -> bool
    requires { length times.now ≤ most_times }
    ensures { result ≡ (eqb (length times.now) (log.points - (first_retained log.points counts.now).0) && not_falling (times.now ++ log.latest.0 ∷ [])) }
{
    let first = first_retained(log.points, counts);
    times.len() as u32 == log.points.saturating_sub(first.0) && latest_last(times, log.latest)
}

// How many points each node has settled.
fn count_points(rule: &[u8], log: LogEnd, times: &[u32], counts: &mut [u32])
    requires { (length rule.now ≡ 12 + 20 * node_count rule.now) × (node_count rule.now ≤ 32) × (32 ≤ length counts.old) × (length times.now ≤ most_times) }
    ensures { CountsStand rule.now log times.now counts.new }
{
    let base = Point(log.points.saturating_sub(times.len() as u32));
    let from = [base.0; MOST_NODES];
    progress::counts(rule, Retained { times, base }, log, &from, counts);
}

// The part of the test that goes by times: few points and times, few points that the last node has not settled, as many times as the counts ask, and none that falls, nor the latest known time.
fn times_fit(rule: &[u8], log: LogEnd, times: &[u32], counts: &mut [u32]) -> bool
    requires { (length rule.now ≡ 12 + 20 * node_count rule.now) × (0 < node_count rule.now) × (node_count rule.now ≤ 32) × (32 ≤ length counts.old) }
    ensures answer { result ≡ times_fit rule.now log times.now }
    ensures counted { result ≡ true → (log.points ≤ most_points) × CountsStand rule.now log times.now counts.new }
{
    if MOST_POINTS < log.points {
        return false;
    }
    if MOST_TIMES < times.len() {
        return false;
    }
    count_points(rule, log, times, counts);
    let n = rule[2] as usize;
    if MOST_OPEN < log.points.saturating_sub(counts[n - 1]) {
        return false;
    }
    times_asked(log, times, &counts[0..n])
}

// The part of the test that goes by entries: few of them, and those of the nodes, where each has settled as many points as counts says.
fn kept_fit(
    rule: &[u8],
    owners: &[u32],
    numbers: &[u32],
    values: &[u32],
    count: usize,
    masks: &[u8],
    counts: &[u32],
    lows: &mut [u32],
    begins: &mut [u32],
    pairs: &mut [u32],
) -> bool
    requires rule_value { (a : Accepted) × (checking rule.now ≡ given a) }
    requires entries_within { EntriesWithin owners.now numbers.now values.now count × (32 ≤ length masks.now) × ((x : ℕ) → x < node_count rule.now → MaskOf rule.now x (get_or masks.now x 0)) }
    requires rule_in_bounds { (node_count rule.now ≤ length counts.now) × Within most_points counts.now × (32 ≤ length lows.old) }
    requires in_bounds { (33 ≤ length begins.old) × (32 ≤ length pairs.old) }
    ensures answer { result ≡ kept_fit rule.now counts.now (entries_from owners.now numbers.now values.now 0 count) count }
    ensures wanted { result ≡ true → (x : ℕ) → x < node_count rule.now → get_or lows.new x 0 ≡ (wanted_from rule.now (λ y. get_or counts.now y 0) x).0 }
    ensures placed { result ≡ true → EntriesPlaced owners.now numbers.now values.now count (wanted_from rule.now (λ y. get_or counts.now y 0)) (λ y. get_or counts.now y 0) (node_count rule.now) begins.new pairs.new }
{
    if MOST_KEPT < count {
        return false;
    }
    wanted::wanted(rule, counts, lows);
    entries_fit(
        rule, owners, numbers, values, count, masks, counts, lows, begins, pairs,
    )
}

// The rule is accepted; the lent bytes then hold the mask of each node's free variables.
fn accepts(rule: &[u8], masks: &mut [u8]) -> bool
    requires { 32 ≤ length masks.old }
    ensures answer { result ≡ is_accepted (checking rule.now) }
    ensures known { result ≡ true → (x : ℕ) → x < node_count rule.now → MaskOf rule.now x (get_or masks.new x 0) }
{
    rulefile::accepts(rule, masks)
}

// Whether what is stored is well formed. Where it is, the lent words hold for each node the mask of its free variables, how many points it has settled, from which point on its rows are kept, and where its entries begin, and its pairs among them; behind the last node's begin, where its entries end.
pub fn well_formed(
    rule: &[u8],
    log: LogEnd,
    times: &[u32],
    owners: &[u32],
    numbers: &[u32],
    values: &[u32],
    count: usize,
    masks: &mut [u8],
    counts: &mut [u32],
    lows: &mut [u32],
    begins: &mut [u32],
    pairs: &mut [u32],
) -> bool
    requires entries_within { EntriesWithin owners.now numbers.now values.now count }
    requires in_bounds { (32 ≤ length masks.old) × (32 ≤ length counts.old) × (32 ≤ length lows.old) }
    requires in_bounds_2 { (33 ≤ length begins.old) × (32 ≤ length pairs.old) }
    ensures answer { result ≡ well_formed (stored_in rule.now log times.now owners.now numbers.now values.now count) }
    ensures known { result ≡ true → StateFigures (stored_in rule.now log times.now owners.now numbers.now values.now count) masks.new counts.new lows.new }
    ensures placed { result ≡ true → EntryPlaces (stored_in rule.now log times.now owners.now numbers.now values.now count) owners.now numbers.now values.now count begins.new pairs.new }
{
    if !accepts(rule, masks) {
        return false;
    }
    if !times_fit(rule, log, times, counts) {
        return false;
    }
    let n = rule[2] as usize;
    kept_fit(
        rule,
        owners,
        numbers,
        values,
        count,
        masks,
        &counts[0..n],
        lows,
        begins,
        pairs,
    )
}
