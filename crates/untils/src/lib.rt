// The valuations of until at a point, from its children's sets in a lent slice. `lowest` is the node's lowest free variable, by which its set is in order.
#![tactic(auto)]

ghost use Rattle.std.specs.Prelude.{◌≡◌, true, false, cond, ◌+◌, ◌-◌, ◌≤◌, ◌<◌, get_or, eqb, length};
ghost use mathlib.Core.List.{[]};
ghost use Rattle.meaning.specs.Lists.{all, select};
ghost use Rattle.meaning.specs.Log.{elapsed, points_from};
ghost use Rattle.meaning.specs.Formula.{in_window};
ghost use Rattle.meaning.specs.Evaluator.{until_rows};
ghost use Rattle.meaning.specs.LookUp.{look_up, is_there};
ghost use Rattle.meaning.specs.View.{passes};
ghost use Rattle.rowset.specs.Rows.{words_of, rows_from};
ghost use Rattle.rowset.specs.Sets.{Run, SetRoom, Added};
ghost use Rattle.room.specs.Room.{sets_of};
ghost use Rattle.progress.specs.Stamps.{stamps_of};
ghost use Rattle.untils.specs.Until.{due_at, passes_at, DueRun, Stands, BothStand};
ghost use Rattle.untils.specs.Leads.{leads_of, test_of};

pub mod lead;

pub use lead::Lead;
use meaning::{Left, Point, Stamp, Window};
use progress::Retained;
use room::{CallSets, Child, Operands, Part};
use rowset::{Gathered, Row};

// What since and until ask: of left, and of the time that has elapsed.
#[derive(Clone, Copy)]
pub struct Asks {
    pub left: Left,
    pub window: Window,
}

// The window holds t.
fn in_window(w: Window, t: u32) -> bool
    ensures { result ≡ in_window w t }
{
    w.start <= t && (w.end == 0 || t < w.end)
}

// How long after the first stamp the second is, 0 where it is before it.
pub fn elapsed(s: Stamp, t: Stamp) -> u32
    ensures { result ≡ elapsed s t }
{
    t.0.saturating_sub(s.0)
}

// The window holds what has elapsed from the first stamp to the second.
pub fn due(w: Window, s: Stamp, t: Stamp) -> bool
    ensures { result ≡ in_window w (elapsed s t) }
{
    in_window(w, elapsed(s, t))
}

// Left passes, where a row was found in its set or not.
pub fn passes(left: Left, found: bool) -> bool
    ensures { result ≡ passes left found }
{
    match left {
        Left::Holds => found,
        Left::Denied => !found,
        Left::Always => true,
    }
}

// The row is in a node's set at point k.
pub fn found_at(sets: CallSets, a: &Child, k: Point, r: Row) -> bool
    requires { Stands sets a.now k (k.0 + 1) }
    ensures { result ≡ is_there (look_up a.now.lowest (words_of r) (sets_of sets.entry a.now k)) }
{
    let set = sets.part(a, k);
    rowset::contains(a.lowest, sets.rows, set.from, set.to, r)
}

impl Lead<'_> {
    // Left passes at each of the points for a row that is cut down already.
    pub fn passes_cut(&self, r: Row) -> bool
        ensures { result ≡ all (passes_at self.now.left self.now.a.lowest (sets_of self.now.sets self.now.a) (words_of r)) (points_from self.now.from (self.now.end.0 - self.now.from.0)) }
    {
        for k in self.from.0..self.end.0 {
            let found = found_at(self.sets, &self.a, Point(k), r);
            if !passes(self.left, found) {
                return false;
            }
        }
        true
    }

    // Left passes at each of the points for row u; nothing is looked up where nothing is asked.
    pub fn passes(&self, u: Row) -> bool
        ensures { result ≡ leads_of self.now (words_of u) }
    {
        matches!(self.left, Left::Always) || self.passes_cut(kinds::cut(self.a.mask, u))
    }
}

// Puts in those of some rows for which left passes.
pub fn put_leading(lowest: u32, lead: &Lead, rows: Part, out: &mut [u32], n: usize) -> usize
    requires run { Run lead.now.sets.rows.now rows.from rows.to }
    requires set_room { SetRoom out.old n }
    ensures { Added lowest out.old n out.new result (select (leads_of lead.now) (rows_from lead.now.sets.rows.now rows.from (rows.to - rows.from))) }
{
    let mut set = Gathered { count: n, near: 0 };
    for x in rows.from..rows.to {
        let u = rowset::row_at(lead.sets.rows, x);
        let ok = lead.passes(u);
        set = rowset::add_if(ok, lowest, out, set, u);
    }
    set.count
}

// The node's set at point j has a row, and the window holds what has elapsed from a stamp to that point. Most sets are empty, and are passed over by their marks alone.
fn due_there(rows: Part, retained: Retained, w: Window, start: Stamp, j: Point) -> bool
    ensures { result ≡ cond (eqb rows.from rows.to) false (due_at (stamps_of retained.entry) w start j) }
{
    rows.from != rows.to && due(w, start, retained.time(j))
}

// Until at point i over the points before m. Where nothing is asked of left, right may be given for left.
pub fn until(
    asks: Asks,
    of: &Operands,
    sets: CallSets,
    retained: Retained,
    i: Point,
    m: u32,
    out: &mut [u32],
    n: usize,
) -> usize
    requires stand { BothStand sets of.now i m }
    requires set_room { SetRoom out.old n }
    ensures { Added of.now.lowest out.old n out.new result (until_rows (stamps_of retained.entry) m asks.window (test_of asks.left of.now sets.entry) (sets_of sets.entry of.now.right) i) }
{
    let start = retained.time(i);
    let mut k = n;
    for j in i.0..m {
        let here = Point(j);
        let rows = sets.part(&of.right, here);
        if !due_there(rows, retained, asks.window, start, here) {
            continue;
        }
        let lead = Lead {
            left: asks.left,
            a: of.left,
            sets,
            from: i,
            end: here,
        };
        k = put_leading(of.lowest, &lead, rows, out, k);
    }
    k
}

// The points from j on before m, as far as all of them are due or, where `want` is false, none is: the first that isn't so, or m.
fn due_run(retained: Retained, w: Window, start: Stamp, j: Point, m: u32, want: bool) -> Point
    requires { j.0 ≤ m }
    ensures { DueRun (due_at (stamps_of retained.entry) w start) j m want result }
{
    for k in j.0..m {
        if due(w, start, retained.time(Point(k))) != want {
            return Point(k);
        }
    }
    Point(m)
}

// Until at point i over the points before m where nothing is asked of left: the rows of a run of points that are due stand together, and are put in as one.
pub fn eventually(
    lowest: u32,
    w: Window,
    right: &Child,
    sets: CallSets,
    retained: Retained,
    i: Point,
    m: u32,
    out: &mut [u32],
    n: usize,
) -> usize
    requires stand { Stands sets right.now i m }
    requires set_room { SetRoom out.old n }
    ensures { Added lowest out.old n out.new result (until_rows (stamps_of retained.entry) m w (λ u k. true) (sets_of sets.entry right.now) i) }
{
    let start = retained.time(i);
    let mut k = n;
    let mut j = i.0;
    // It goes on by runs of points and not by one, so that no range gives its points.
    while j < m {
        let from = due_run(retained, w, start, Point(j), m, false);
        let to = due_run(retained, w, start, from, m, true);
        let p = right.first + (from.0 - right.low.0) as usize;
        let q = right.first + (to.0 - right.low.0) as usize;
        k = kinds::copy(
            lowest,
            sets.rows,
            sets.at[p] as usize,
            sets.at[q] as usize,
            out,
            k,
        );
        j = to.0;
    }
    k
}
