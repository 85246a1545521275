// Sets of valuations as rows of four words in lent slices. `lowest` is the lowest free variable of their node, by which they are in order.
#![tactic(auto)]

ghost use Rattle.std.specs.Prelude.{◌≡◌, ℕ, List, map, cond, [], ◌∷◌, ◌++◌, ◌+◌, ◌-◌, ◌*◌, ◌≤◌, ◌<◌, IfErr, length, ltb};
ghost use Rattle.std.specs.Ordering.{nat_cmp};
ghost use Rattle.meaning.specs.Lists.{range};
ghost use Rattle.meaning.specs.Order.{before};
ghost use Rattle.meaning.specs.LookUp.{onward, look_up, is_there};
ghost use Rattle.rowset.specs.Rows.{words_of, row_at, set_row, rows_from, compared};
ghost use Rattle.rowset.specs.Sets.{Run, Led, Tells, Begins, GatherRoom, Gathers};

use meaning::MOST_ROWS;
use std::cmp::Ordering;

// Rows at most that a set takes: one more than a node may have, so that too many shows.
const MOST_HELD: usize = MOST_ROWS as usize + 1;

// A valuation: the values of variables 0 to 3, 0 where one isn't free.
#[derive(Clone, Copy)]
pub struct Row {
    pub v0: u32,
    pub v1: u32,
    pub v2: u32,
    pub v3: u32,
}

// Row k of the words.
pub fn row_at(ws: &[u32], k: usize) -> Row
    requires { k * 4 + 4 ≤ length ws.now }
    ensures { words_of result ≡ row_at ws.now k }
{
    Row {
        v0: ws[k * 4],
        v1: ws[k * 4 + 1],
        v2: ws[k * 4 + 2],
        v3: ws[k * 4 + 3],
    }
}

// Puts a row in place of row k.
pub fn put_row(ws: &mut [u32], k: usize, r: Row)
    requires { k * 4 + 4 ≤ length ws.old }
    ensures { ws.new ≡ set_row ws.old k r }
{
    ws[k * 4] = r.v0;
    ws[k * 4 + 1] = r.v1;
    ws[k * 4 + 2] = r.v2;
    ws[k * 4 + 3] = r.v3;
}

// Word k of two rows: it descends behind that of the lowest free variable, else it ascends. That both are the same is told first, whichever way they go.
fn compare_at(lowest: u32, k: u32, a: u32, b: u32) -> Ordering
    ensures { result ≡ cond (ltb lowest k) (nat_cmp b a) (nat_cmp a b) }
{
    if a == b {
        return Ordering::Equal;
    }
    if lowest < k { b.cmp(&a) } else { a.cmp(&b) }
}

// The order of rows of a node with this lowest free variable: the first word in which they differ decides.
pub fn compare(lowest: u32, x: Row, y: Row) -> Ordering
    ensures { result ≡ compared lowest (words_of x) (words_of y) }
{
    // The first word mostly decides. By `then_with` alone all four are compared ahead: a fifth more instructions for an event with 32 rows in each set.
    if x.v0 != y.v0 {
        return compare_at(lowest, 0, x.v0, y.v0);
    }
    compare_at(lowest, 1, x.v1, y.v1)
        .then_with(|| compare_at(lowest, 2, x.v2, y.v2))
        .then_with(|| compare_at(lowest, 3, x.v3, y.v3))
}

// The first row stands before the second.
pub fn is_before(lowest: u32, x: Row, y: Row) -> bool
    ensures { result ≡ before lowest (words_of x) (words_of y) }
{
    compare(lowest, x, y).is_lt()
}

// Looks through items from..to, one after another, for one to which each stands as told: it stops at the first that isn't before it, which is equal or larger.
pub fn seek<F: Fn(usize) -> Ordering>(from: usize, to: usize, stands: F) -> Result<usize, usize>
    requires ordered { from ≤ to }
    requires told { (i : ℕ) → i < to → F.pre stands i }
    ensures { (lowest : ℕ) (at : ℕ → List ℕ) (x : List ℕ) → Tells (F.post stands) lowest at to x → result ≡ onward from (look_up lowest x (map at (range from (to - from)))) }
{
    for i in from..to {
        match stands(i) {
            Ordering::Less => {}
            Ordering::Equal => return Ok(i),
            Ordering::Greater => return Err(i),
        }
    }
    Err(to)
}

// Where a search among the first n items may begin, if those before item p all stand before it: behind item p where that is before the one looked for, else at the front; or it is there.
fn start_at<F: Fn(usize) -> Ordering>(n: usize, p: usize, stands: &F) -> Result<usize, usize>
    requires { (i : ℕ) → i < n → F.pre stands.now i }
    ensures within { IfErr result (λ q. q ≤ n) }
    ensures begins { (lowest : ℕ) (at : ℕ → List ℕ) (x : List ℕ) → Tells (F.post stands.now) lowest at n x → Led lowest at p → Begins lowest at n x result }
{
    if n <= p {
        return Err(0);
    }
    match stands(p) {
        Ordering::Less => Err(p + 1),
        Ordering::Equal => Ok(p),
        Ordering::Greater => Err(0),
    }
}

// Looks among the first n items for one to which each stands as told. The answer is that from the front, whatever stands behind item p.
pub fn seek_near<F: Fn(usize) -> Ordering>(n: usize, p: usize, stands: F) -> Result<usize, usize>
    requires { (i : ℕ) → i < n → F.pre stands i }
    ensures { (lowest : ℕ) (at : ℕ → List ℕ) (x : List ℕ) → Tells (F.post stands) lowest at n x → Led lowest at p → result ≡ look_up lowest x (map at (range 0 n)) }
{
    match start_at(n, p, &stands) {
        Ok(q) => Ok(q),
        Err(q) => seek(q, n, stands),
    }
}

// Looks for the row in a run, from its front. It stands apart for both that look: with this loop in it `add` is too large to be put into its callers' loops, and an event of the half-hour rule takes a twelfth more instructions.
fn seek_row(lowest: u32, ws: &[u32], from: usize, to: usize, r: Row) -> Result<usize, usize>
    requires { Run ws.now from to }
    ensures { result ≡ onward from (look_up lowest (words_of r) (rows_from ws.now from (to - from))) }
{
    seek(from, to, |i| compare(lowest, row_at(ws, i), r))
}

// The row is in the run.
pub fn contains(lowest: u32, ws: &[u32], from: usize, to: usize, r: Row) -> bool
    requires { Run ws.now from to }
    ensures { result ≡ is_there (look_up lowest (words_of r) (rows_from ws.now from (to - from))) }
{
    seek_row(lowest, ws, from, to, r).is_ok()
}

// Looks for the row among the first n rows. The answer is that from the front, whatever stands behind row p.
fn seek_row_near(lowest: u32, ws: &[u32], n: usize, p: usize, r: Row) -> Result<usize, usize>
    requires { (n * 4 ≤ length ws.now) × Led lowest (row_at ws.now) p }
    ensures { result ≡ look_up lowest (words_of r) (rows_from ws.now 0 n) }
{
    match start_at(n, p, &|i| compare(lowest, row_at(ws, i), r)) {
        Ok(q) => Ok(q),
        Err(q) => seek_row(lowest, ws, q, n, r),
    }
}

// Puts r at row p, with the rows from there to row n moved up by one.
fn put_in(out: &mut [u32], n: usize, p: usize, r: Row)
    requires { (p ≤ n) × (n * 4 + 4 ≤ length out.old) }
    ensures { rows_from out.new 0 (n + 1) ≡ rows_from out.old 0 p ++ words_of r ∷ rows_from out.old p (n - p) }
{
    out.copy_within(p * 4..n * 4, (p + 1) * 4);
    put_row(out, p, r);
}

// A set that rows are gathered in: how many it has, and a row near which the next is looked for: those before it stand before it in order too.
#[derive(Clone, Copy)]
pub struct Gathered {
    pub count: usize,
    pub near: usize,
}

// Puts a row into a set, unless it is there or the set is full.
pub fn add(lowest: u32, out: &mut [u32], set: Gathered, r: Row) -> Gathered
    requires { GatherRoom lowest out.old set }
    ensures { Gathers lowest out.old set out.new result (words_of r ∷ []) }
{
    let n = set.count;
    if MOST_HELD <= n {
        return set;
    }
    match seek_row_near(lowest, out, n, set.near, r) {
        Ok(p) => Gathered { count: n, near: p },
        Err(p) => {
            put_in(out, n, p, r);
            Gathered {
                count: n + 1,
                near: p,
            }
        }
    }
}

// Puts a row into a set where the test passed.
pub fn add_if(ok: bool, lowest: u32, out: &mut [u32], set: Gathered, r: Row) -> Gathered
    requires { GatherRoom lowest out.old set }
    ensures { Gathers lowest out.old set out.new result (cond ok (words_of r ∷ []) []) }
{
    if ok { add(lowest, out, set, r) } else { set }
}

// Puts the rows from..to into a set.
pub fn add_rows(
    lowest: u32,
    rows: &[u32],
    from: usize,
    to: usize,
    out: &mut [u32],
    set: Gathered,
) -> Gathered
    requires run { Run rows.now from to }
    requires gather_room { GatherRoom lowest out.old set }
    ensures { Gathers lowest out.old set out.new result (rows_from rows.now from (to - from)) }
{
    let mut g = set;
    for i in from..to {
        g = add(lowest, out, g, row_at(rows, i));
    }
    g
}
