// Pairs of an age and a row as a strictly ascending set: the ages are in one lent slice, the rows, of four words each, in another. `lowest` is the lowest free variable of their node, by which the rows of one age are in order.
#![tactic(auto)]

ghost use Rattle.std.specs.Prelude.{ℕ, suc, ◌+◌, ◌-◌, ◌*◌, ◌≤◌, ◌<◌, min, ◌≡◌, true, cond, [], ◌∷◌, ◌++◌, map, length, get_or};
ghost use Rattle.meaning.specs.Order.{before, ascending};
ghost use Rattle.meaning.specs.LookUp.{look_up};
ghost use Rattle.rowset.specs.Rows.{words_of, rows_from, compared};
ghost use Rattle.rowset.specs.Sets.{Run, Led};
ghost use Rattle.kinds.specs.Kinds.{pair_at, pairs_from, PairsThere};
ghost use Rattle.entries.specs.Appended.{WordsPut};
ghost use Rattle.pairs.specs.Pairs.{PairRoom, PairsAdded, Rising, Below, grown_pairs, Behind};

use rowset::{Gathered, Row};
use std::cmp::Ordering;

// Two words as one number: it orders by the first, and then by the second.
pub fn joint(a: u32, v: u32) -> u64
    ensures { result ≡ a * 4294967296 + v }
{
    u64::from(a) * 4294967296 + u64::from(v)
}

// The order of pairs: the age first, then the row. Both the age and the row's first word ascend, and they are compared at once, so that pairs that ascend nearly always take the first way.
fn compare(lowest: u32, a: u32, x: Row, b: u32, y: Row) -> Ordering
    ensures { result ≡ compared (suc lowest) (a ∷ words_of x) (b ∷ words_of y) }
{
    let p = joint(a, x.v0);
    let q = joint(b, y.v0);
    // By `then_with` putting in a pair takes a fifth more instructions.
    if p != q {
        return p.cmp(&q);
    }
    rowset::compare(lowest, x, y)
}

// The first pair stands before the second.
pub fn pair_before(lowest: u32, a: u32, x: Row, b: u32, y: Row) -> bool
    ensures { result ≡ before (suc lowest) (a ∷ words_of x) (b ∷ words_of y) }
{
    compare(lowest, a, x, b, y).is_lt()
}

// How pair i stands to a pair.
fn stands(lowest: u32, ages: &[u32], values: &[u32], i: usize, age: u32, r: Row) -> Ordering
    requires { (i < length ages.now) × (i * 4 + 4 ≤ length values.now) }
    ensures { result ≡ compared (suc lowest) (pair_at ages.now values.now i) (age ∷ words_of r) }
{
    compare(lowest, ages[i], rowset::row_at(values, i), age, r)
}

// Looks for the pair among the first n. The answer is that from the front, whatever stands behind pair p.
fn seek_near(
    lowest: u32,
    ages: &[u32],
    values: &[u32],
    n: usize,
    p: usize,
    age: u32,
    r: Row,
) -> Result<usize, usize>
    requires { PairsThere ages.now values.now n × Led (suc lowest) (pair_at ages.now values.now) p }
    ensures { result ≡ look_up (suc lowest) (age ∷ words_of r) (pairs_from ages.now values.now 0 n) }
{
    rowset::seek_near(n, p, |i| stands(lowest, ages, values, i, age, r))
}

// Puts a pair at place p, with the pairs from there to place n moved up by one.
fn put_in(ages: &mut [u32], values: &mut [u32], n: usize, p: usize, age: u32, r: Row)
    requires { (p ≤ n) × (n + 1 ≤ length ages.old) × ((n + 1) * 4 ≤ length values.old) }
    ensures { pairs_from ages.new values.new 0 (n + 1) ≡ pairs_from ages.old values.old 0 p ++ (age ∷ words_of r) ∷ pairs_from ages.old values.old p (n - p) }
{
    if p < n {
        ages.copy_within(p..n, p + 1);
        values.copy_within(p * 4..n * 4, (p + 1) * 4);
    }
    ages[p] = age;
    rowset::put_row(values, p, r);
}

// Puts a pair into a set, unless it is there or the pairs are too many already. Where there is no room for it, it is counted alone.
pub fn add(
    lowest: u32,
    ages: &mut [u32],
    values: &mut [u32],
    set: Gathered,
    age: u32,
    r: Row,
) -> Gathered
    requires { PairRoom lowest ages.old values.old set }
    ensures { PairsAdded lowest ages.old values.old set ages.new values.new result ((age ∷ words_of r) ∷ []) }
{
    let n = set.count;
    if ages.len() < n {
        return set;
    }
    match seek_near(lowest, ages, values, n, set.near, age, r) {
        Ok(p) => Gathered { count: n, near: p },
        Err(p) => {
            if n == ages.len() {
                return Gathered {
                    count: n + 1,
                    near: 0,
                };
            }
            put_in(ages, values, n, p, age, r);
            Gathered {
                count: n + 1,
                near: p,
            }
        }
    }
}

// Puts a pair in where the test passed.
pub fn add_if(
    ok: bool,
    lowest: u32,
    ages: &mut [u32],
    values: &mut [u32],
    set: Gathered,
    age: u32,
    r: Row,
) -> Gathered
    requires { PairRoom lowest ages.old values.old set }
    ensures { PairsAdded lowest ages.old values.old set ages.new values.new result (cond ok ((age ∷ words_of r) ∷ []) []) }
{
    if ok {
        add(lowest, ages, values, set, age, r)
    } else {
        set
    }
}

// Puts in a pair at the age for each of the rows from..to. It is a loop of its own, since nothing is looked up in it.
pub fn add_young(
    lowest: u32,
    rows: &[u32],
    from: usize,
    to: usize,
    age: u32,
    ages: &mut [u32],
    values: &mut [u32],
    set: Gathered,
) -> Gathered
    requires run { Run rows.now from to }
    requires pair_room { PairRoom lowest ages.old values.old set }
    ensures { PairsAdded lowest ages.old values.old set ages.new values.new result (map (λ u. age ∷ u) (rows_from rows.now from (to - from))) }
{
    let mut g = set;
    for x in from..to {
        let r = rowset::row_at(rows, x);
        g = add(lowest, ages, values, g, age, r);
    }
    g
}

// How many of the first n ages, grown by so much, are below a bound. The ages don't fall, so these are at the front.
pub fn count_below(ages: &[u32], n: usize, by: u32, bound: u64) -> usize
    requires { (n ≤ length ages.now) × Rising ages.now n }
    ensures below { Below ages.now n by bound result }
    ensures words { (k : ℕ) → get_or ages.now k 0 < 4294967296 }
{
    ages[..n].partition_point(|age| u64::from(*age) + u64::from(by) < bound)
}

// The age, or `most` where it is more.
pub fn at_most(most: u32, age: u64) -> u32
    ensures { result ≡ min age most }
{
    age.min(u64::from(most)) as u32
}

// Puts in the first m pairs of others, each grown older, one by one.
fn add_each_grown(
    lowest: u32,
    old_ages: &[u32],
    old_values: &[u32],
    m: usize,
    by: u32,
    most: u32,
    ages: &mut [u32],
    values: &mut [u32],
    set: Gathered,
) -> Gathered
    requires pairs_there { PairsThere old_ages.now old_values.now m }
    requires pair_room { PairRoom lowest ages.old values.old set }
    ensures { PairsAdded lowest ages.old values.old set ages.new values.new result (grown_pairs by most (pairs_from old_ages.now old_values.now 0 m)) }
{
    let mut g = set;
    for x in 0..m {
        let r = rowset::row_at(old_values, x);
        let age = at_most(most, u64::from(old_ages[x]) + u64::from(by));
        g = add(lowest, ages, values, g, age, r);
    }
    g
}

// The first m pairs of others, grown older, have room behind the pairs of a set and stand after the last of them, which those before it lead up to, and the oldest is at most `most` old.
fn fits_behind(old_ages: &[u32], m: usize, by: u32, most: u32, ages: &[u32], set: Gathered) -> bool
    requires { (m ≤ length old_ages.now) × (set.count ≤ length ages.now + 1) }
    ensures { result ≡ true → Behind old_ages.now m by most ages.now set }
{
    let n = set.count;
    if m == 0 {
        return false;
    }
    if ages.len() < n + m {
        return false;
    }
    if u64::from(most) < u64::from(old_ages[m - 1]) + u64::from(by) {
        return false;
    }
    if n == 0 {
        return true;
    }
    if set.near != n - 1 {
        return false;
    }
    u64::from(ages[n - 1]) < u64::from(old_ages[0]) + u64::from(by)
}

// Puts the first m ages, each grown by so much, to number n and on.
fn put_grown(old_ages: &[u32], m: usize, by: u32, ages: &mut [u32], n: usize)
    requires m_in_bounds { (m ≤ length old_ages.now) × (n + m ≤ length ages.old) }
    requires by_index { (k : ℕ) → k < m → get_or old_ages.now k 0 + by < 4294967296 }
    ensures { WordsPut ages.old n ages.new m (λ k. get_or old_ages.now k 0 + by) }
{
    for k in 0..m {
        ages[n + k] = old_ages[k] + by;
    }
}

// Puts in the first m pairs of others, each grown older: at once where they all belong behind the n pairs that are there, as they mostly do.
pub fn add_grown(
    lowest: u32,
    old_ages: &[u32],
    old_values: &[u32],
    m: usize,
    by: u32,
    most: u32,
    ages: &mut [u32],
    values: &mut [u32],
    set: Gathered,
) -> Gathered
    requires pairs_there { PairsThere old_ages.now old_values.now m × (ascending (suc lowest) (pairs_from old_ages.now old_values.now 0 m) ≡ true) }
    requires pair_room { PairRoom lowest ages.old values.old set }
    ensures { PairsAdded lowest ages.old values.old set ages.new values.new result (grown_pairs by most (pairs_from old_ages.now old_values.now 0 m)) }
{
    if fits_behind(old_ages, m, by, most, ages, set) {
        let n = set.count;
        put_grown(old_ages, m, by, ages, n);
        entries::copy_words(old_values, m * 4, values, n * 4);
        return Gathered {
            count: n + m,
            near: 0,
        };
    }
    add_each_grown(lowest, old_ages, old_values, m, by, most, ages, values, set)
}
