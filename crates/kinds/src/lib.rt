// What each kind puts into a set of valuations, from its children's sets in a lent slice. `lowest` is the node's lowest free variable, by which its set is in order.
#![tactic(auto)]

ghost use Rattle.std.specs.Prelude.{◌≡◌, ◌&&◌, ◌||◌, not, cond, [], ◌∷◌, map, ◌+◌, ◌-◌, ◌*◌, ◌≤◌, ◌<◌, length, get_or, take, eqb};
ghost use Rattle.meaning.specs.Lists.{select, same_row};
ghost use Rattle.meaning.specs.Formula.{terms_of, compares, is_variable, variables, lowest_of};
ghost use Rattle.meaning.specs.Definition2.{value};
ghost use Rattle.meaning.specs.Log.{relation_in};
ghost use Rattle.meaning.specs.Event.{row_count, columns_of};
ghost use Rattle.meaning.specs.Evaluator.{cut_to, valuation_of, bound, matches, atom_rows, agrees, joined, and_rows};
ghost use Rattle.meaning.specs.LookUp.{look_up, is_there};
ghost use Rattle.rowset.specs.Rows.{words_of, rows_from};
ghost use Rattle.rowset.specs.Sets.{Run, SetRoom, Added, GatherRoom, Gathers};
ghost use Rattle.kinds.specs.Kinds.{in_mask, EventThere, rows_with};

use meaning::{Comparison, Term, Terms};
use readings::shifted_less;
use rowset::{Gathered, Row};

// Four variables: whether each is in a set.
#[derive(Clone, Copy)]
pub struct Vars {
    pub b0: bool,
    pub b1: bool,
    pub b2: bool,
    pub b3: bool,
}

fn vars_of(mask: u8) -> Vars
    ensures { (result.b0 ≡ in_mask mask 0) × (result.b1 ≡ in_mask mask 1) × (result.b2 ≡ in_mask mask 2) × (result.b3 ≡ in_mask mask 3) }
{
    Vars {
        b0: mask / 1 % 2 == 1,
        b1: mask / 2 % 2 == 1,
        b2: mask / 4 % 2 == 1,
        b3: mask / 8 % 2 == 1,
    }
}

fn pick(t: bool, a: u32, b: u32) -> u32
    ensures { result ≡ cond t a b }
{
    if t { a } else { b }
}

// The row cut down to the variables of the mask.
pub fn cut(mask: u8, u: Row) -> Row
    ensures { words_of result ≡ cut_to (in_mask mask) (valuation_of (words_of u)) }
{
    let v = vars_of(mask);
    Row {
        v0: pick(v.b0, u.v0, 0),
        v1: pick(v.b1, u.v1, 0),
        v2: pick(v.b2, u.v2, 0),
        v3: pick(v.b3, u.v3, 0),
    }
}

// The lowest variable of the mask; 0 where it has none.
pub fn lowest_of(mask: u8) -> u32
    ensures { result ≡ lowest_of (in_mask mask) }
{
    let v = vars_of(mask);
    if v.b0 {
        return 0;
    }
    if v.b1 {
        return 1;
    }
    if v.b2 {
        return 2;
    }
    pick(v.b3, 3, 0)
}

// The row with variable x set to 0.
fn without(x: u32, u: Row) -> Row
    ensures { words_of result ≡ cut_to (λ y. not (eqb y x)) (valuation_of (words_of u)) }
{
    Row {
        v0: pick(0 != x, u.v0, 0),
        v1: pick(1 != x, u.v1, 0),
        v2: pick(2 != x, u.v2, 0),
        v3: pick(3 != x, u.v3, 0),
    }
}

// Two rows put together: the variables of the mask from the first, the others from the second.
fn join(f: u8, u: Row, w: Row) -> Row
    ensures { words_of result ≡ joined (in_mask f) (words_of u) (words_of w) }
{
    let v = vars_of(f);
    Row {
        v0: pick(v.b0, u.v0, w.v0),
        v1: pick(v.b1, u.v1, w.v1),
        v2: pick(v.b2, u.v2, w.v2),
        v3: pick(v.b3, u.v3, w.v3),
    }
}

// The words are equal where both tests passed, and the rest agrees.
fn word_agrees(f: bool, g: bool, a: u32, b: u32, rest: bool) -> bool
    ensures { result ≡ ((not (f && g) || eqb a b) && rest) }
{
    (!(f && g) || a == b) && rest
}

fn agree(f: u8, g: u8, u: Row, w: Row) -> bool
    ensures { result ≡ agrees (in_mask f) (in_mask g) (words_of u) (words_of w) }
{
    let p = vars_of(f);
    let q = vars_of(g);
    let last = word_agrees(p.b3, q.b3, u.v3, w.v3, true);
    let third = word_agrees(p.b2, q.b2, u.v2, w.v2, last);
    let second = word_agrees(p.b1, q.b1, u.v1, w.v1, third);
    word_agrees(p.b0, q.b0, u.v0, w.v0, second)
}

// The value of variable x in the row; 0 for a variable above 3.
fn column(u: Row, x: u32) -> u32
    ensures { result ≡ get_or (words_of u) x 0 }
{
    match x {
        0 => u.v0,
        1 => u.v1,
        2 => u.v2,
        3 => u.v3,
        _ => 0,
    }
}

fn term_value(u: Row, t: Term) -> u32
    ensures { result ≡ value (valuation_of (words_of u)) t }
{
    match t {
        Term::Variable(x) => column(u, x),
        Term::Constant(c) => c,
    }
}

fn compare(c: Comparison, a: u32, b: u32) -> bool
    ensures { result ≡ compares c a b }
{
    match c {
        Comparison::Equal => a == b,
        Comparison::Different => a != b,
        Comparison::Less => a < b,
        Comparison::NotLess => !(a < b),
        Comparison::ShiftedLess(k) => shifted_less(a, k, b),
    }
}

// Copies the rows of a run: serves "or", "previous" and "next".
pub fn copy(lowest: u32, rows: &[u32], from: usize, to: usize, out: &mut [u32], n: usize) -> usize
    requires run { Run rows.now from to }
    requires set_room { SetRoom out.old n }
    ensures { Added lowest out.old n out.new result (rows_from rows.now from (to - from)) }
{
    let g = rowset::add_rows(lowest, rows, from, to, out, Gathered { count: n, near: 0 });
    g.count
}

// The rows that join a row of the left child with those of the right child that agree with it.
fn and_row(
    lowest: u32,
    f: u8,
    g: u8,
    u: Row,
    rows: &[u32],
    from: usize,
    to: usize,
    out: &mut [u32],
    n: usize,
) -> usize
    requires run { Run rows.now from to }
    requires set_room { SetRoom out.old n }
    ensures { Added lowest out.old n out.new result (map (joined (in_mask f) (words_of u)) (select (agrees (in_mask f) (in_mask g) (words_of u)) (rows_from rows.now from (to - from)))) }
{
    let mut set = Gathered { count: n, near: 0 };
    for i in from..to {
        let w = rowset::row_at(rows, i);
        let ok = agree(f, g, u, w);
        let row = join(f, u, w);
        set = rowset::add_if(ok, lowest, out, set, row);
    }
    set.count
}

// "and": f and g are the masks of the children's variables; the left child's rows are from..to, the right child's start..end.
pub fn and(
    lowest: u32,
    f: u8,
    g: u8,
    rows: &[u32],
    from: usize,
    to: usize,
    start: usize,
    end: usize,
    out: &mut [u32],
    n: usize,
) -> usize
    requires run { Run rows.now from to }
    requires run_2 { Run rows.now start end }
    requires set_room { SetRoom out.old n }
    ensures { Added lowest out.old n out.new result (and_rows (in_mask f) (in_mask g) (rows_from rows.now from (to - from)) (rows_from rows.now start (end - start))) }
{
    let mut k = n;
    for i in from..to {
        let u = rowset::row_at(rows, i);
        k = and_row(lowest, f, g, u, rows, start, end, out, k);
    }
    k
}

// "and not": g is the mask of the right child's variables, and inner the lowest of them; the rows are as for "and".
pub fn and_not(
    lowest: u32,
    g: u8,
    inner: u32,
    rows: &[u32],
    from: usize,
    to: usize,
    start: usize,
    end: usize,
    out: &mut [u32],
    n: usize,
) -> usize
    requires run { Run rows.now from to }
    requires run_2 { Run rows.now start end }
    requires set_room { SetRoom out.old n }
    ensures { Added lowest out.old n out.new result (select (λ u. not (is_there (look_up inner (cut_to (in_mask g) (valuation_of u)) (rows_from rows.now start (end - start))))) (rows_from rows.now from (to - from))) }
{
    let mut set = Gathered { count: n, near: 0 };
    for i in from..to {
        let u = rowset::row_at(rows, i);
        let found = rowset::contains(inner, rows, start, end, cut(g, u));
        set = rowset::add_if(!found, lowest, out, set, u);
    }
    set.count
}

// "keep": a row is put in where its values of the two terms compare so.
pub fn keep(
    lowest: u32,
    c: Comparison,
    s: Term,
    t: Term,
    rows: &[u32],
    from: usize,
    to: usize,
    out: &mut [u32],
    n: usize,
) -> usize
    requires run { Run rows.now from to }
    requires set_room { SetRoom out.old n }
    ensures { Added lowest out.old n out.new result (select (λ u. compares c (value (valuation_of u) s) (value (valuation_of u) t)) (rows_from rows.now from (to - from))) }
{
    let mut set = Gathered { count: n, near: 0 };
    for i in from..to {
        let u = rowset::row_at(rows, i);
        let a = term_value(u, s);
        let b = term_value(u, t);
        let ok = compare(c, a, b);
        set = rowset::add_if(ok, lowest, out, set, u);
    }
    set.count
}

// "exists": variable x is no longer free.
pub fn exists(
    lowest: u32,
    x: u32,
    rows: &[u32],
    from: usize,
    to: usize,
    out: &mut [u32],
    n: usize,
) -> usize
    requires run { Run rows.now from to }
    requires set_room { SetRoom out.old n }
    ensures { Added lowest out.old n out.new result (map (λ u. cut_to (λ y. not (eqb y x)) (valuation_of u)) (rows_from rows.now from (to - from))) }
{
    let mut set = Gathered { count: n, near: 0 };
    for i in from..to {
        let u = without(x, rowset::row_at(rows, i));
        set = rowset::add(lowest, out, set, u);
    }
    set.count
}

fn is_variable(x: u32, t: Term) -> bool
    ensures { result ≡ is_variable x t }
{
    matches!(t, Term::Variable(y) if x == y)
}

// The one of four at place k; the fourth for every place after it.
fn at_place<T: Copy>(k: u8, first: T, second: T, third: T, fourth: T) -> T
    ensures { result ≡ get_or (first ∷ second ∷ third ∷ []) k fourth }
{
    match k {
        0 => first,
        1 => second,
        2 => third,
        _ => fourth,
    }
}

fn term_at(ts: Terms, k: u8) -> Term
    ensures { result ≡ get_or (ts.first ∷ ts.second ∷ ts.third ∷ []) k ts.fourth }
{
    at_place(k, ts.first, ts.second, ts.third, ts.fourth)
}

// The value that the columns give to variable x.
fn bound_of(ts: Terms, c: Row, x: u32) -> u32
    ensures { result ≡ bound (terms_of ts) (take ts.count (words_of c)) x }
{
    // No loop, which takes more instructions here and in `bound_row`: a sixteenth more for an event with 32 rows in each set.
    if 0 < ts.count && is_variable(x, ts.first) {
        return c.v0;
    }
    if 1 < ts.count && is_variable(x, ts.second) {
        return c.v1;
    }
    if 2 < ts.count && is_variable(x, ts.third) {
        return c.v2;
    }
    if 3 < ts.count && is_variable(x, ts.fourth) {
        return c.v3;
    }
    0
}

fn term_bound(ts: Terms, c: Row, t: Term) -> u32
    ensures { result ≡ value (bound (terms_of ts) (take ts.count (words_of c))) t }
{
    match t {
        Term::Variable(x) => bound_of(ts, c, x),
        Term::Constant(a) => a,
    }
}

// The columns are the terms' values. It is a loop since tests of four terms would be made ahead, for a node of any kind.
fn columns_match(ts: Terms, c: Row) -> bool
    ensures { result ≡ same_row (map (value (bound (terms_of ts) (take ts.count (words_of c)))) (terms_of ts)) (take ts.count (words_of c)) }
{
    for k in 0..ts.count {
        if term_bound(ts, c, term_at(ts, k)) != at_place(k, c.v0, c.v1, c.v2, c.v3) {
            return false;
        }
    }
    true
}

// The row with c for variable x; the row itself for a variable above 3.
fn with_value(x: u32, c: u32, r: Row) -> Row
    ensures { words_of result ≡ map (λ y. cond (eqb y x) c (valuation_of (words_of r) y)) variables }
{
    match x {
        0 => Row { v0: c, ..r },
        1 => Row { v1: c, ..r },
        2 => Row { v2: c, ..r },
        3 => Row { v3: c, ..r },
        _ => r,
    }
}

// The row with the column's value at the variable that the term is; the row itself where it is a constant.
fn with_column(t: Term, c: u32, r: Row) -> Row
    ensures { words_of result ≡ map (λ x. cond (is_variable x t) c (valuation_of (words_of r) x)) variables }
{
    match t {
        Term::Variable(x) => with_value(x, c, r),
        Term::Constant(_) => r,
    }
}

// The values that the columns give to the four variables: the first column's are put in last.
fn bound_row(ts: Terms, c: Row) -> Row
    ensures { words_of result ≡ map (bound (terms_of ts) (take ts.count (words_of c))) variables }
{
    let none = Row {
        v0: 0,
        v1: 0,
        v2: 0,
        v3: 0,
    };
    match ts.count {
        0 => none,
        1 => with_column(ts.first, c.v0, none),
        2 => {
            let last = with_column(ts.second, c.v1, none);
            with_column(ts.first, c.v0, last)
        }
        3 => {
            let last = with_column(ts.third, c.v2, none);
            let second = with_column(ts.second, c.v1, last);
            with_column(ts.first, c.v0, second)
        }
        _ => {
            let last = with_column(ts.fourth, c.v3, none);
            let third = with_column(ts.third, c.v2, last);
            let second = with_column(ts.second, c.v1, third);
            with_column(ts.first, c.v0, second)
        }
    }
}

// The columns of row k of an event of m rows.
fn columns_at(event: &[u32], m: usize, k: usize) -> Row
    requires { (m ≡ row_count event.now) × (2 + m + 4 * k + 4 ≤ length event.now) }
    ensures { words_of result ≡ columns_of event.now k }
{
    let at = 2 + m + 4 * k;
    Row {
        v0: event[at],
        v1: event[at + 1],
        v2: event[at + 2],
        v3: event[at + 3],
    }
}

// What an atom puts in for one row of an event.
fn atom_row(
    lowest: u32,
    relation: u32,
    found: u32,
    ts: Terms,
    c: Row,
    out: &mut [u32],
    set: Gathered,
) -> Gathered
    requires { GatherRoom lowest out.old set }
    ensures { Gathers lowest out.old set out.new result (cond (eqb found relation && matches (terms_of ts) (take ts.count (words_of c))) (map (bound (terms_of ts) (take ts.count (words_of c))) variables ∷ []) []) }
{
    if found == relation {
        let ok = columns_match(ts, c);
        let row = bound_row(ts, c);
        rowset::add_if(ok, lowest, out, set, row)
    } else {
        set
    }
}

// How many rows an event has; a notice, which is one word, has none.
pub fn row_total(event: &[u32]) -> usize
    ensures { result ≡ row_count event.now }
{
    event.get(1).map_or(0, |m| *m as usize)
}

// "atom": a row of the event has as many values as the atom has terms.
pub fn atom(
    lowest: u32,
    relation: u32,
    ts: Terms,
    event: &[u32],
    out: &mut [u32],
    n: usize,
) -> usize
    requires event_there { EventThere event.now }
    requires set_room { SetRoom out.old n }
    ensures { Added lowest out.old n out.new result (atom_rows (terms_of ts) (relation_in relation (rows_with ts.count event.now))) }
{
    let m = row_total(event);
    let mut set = Gathered { count: n, near: 0 };
    for i in 0..m {
        let c = columns_at(event, m, i);
        set = atom_row(lowest, relation, event[2 + i], ts, c, out, set);
    }
    set.count
}
