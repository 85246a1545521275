// The valuations of one node at one newly settled point, by its kind, from its children's sets in a lent slice; and its pairs there. `lowest` is the node's lowest free variable, by which both are in order.
#![tactic(auto)]

ghost use Rattle.std.specs.Prelude.{◌≡◌, cond, not, ◌&&◌, [], ◌++◌, map, ◌+◌, ◌<◌, min, length, ltb, eqb};
ghost use Rattle.meaning.specs.Lists.{select};
ghost use Rattle.meaning.specs.Log.{point, elapsed, point_before, point_after};
ghost use Rattle.meaning.specs.Formula.{in_window, compares};
ghost use Rattle.meaning.specs.Definition2.{value};
ghost use Rattle.meaning.specs.Evaluator.{cut_to, valuation_of, and_rows, until_rows};
ghost use Rattle.meaning.specs.LookUp.{look_up, is_there};
ghost use Rattle.rowset.specs.Sets.{SetRoom, Added};
ghost use Rattle.kinds.specs.Kinds.{in_mask, PairsThere};
ghost use Rattle.room.specs.Room.{sets_of};
ghost use Rattle.progress.specs.Stamps.{stamps_of};
ghost use Rattle.untils.specs.Until.{BothStand};
ghost use Rattle.untils.specs.Leads.{test_of};
ghost use Rattle.settling.specs.Children.{SetThere};
ghost use Rattle.settling.specs.Inputs.{asked, right_in, PointSettled, PairsSettled};

use meaning::{Children, Comparison, Left, Node, Point, Sides, Times, Window};
use progress::Retained;
use room::{CallSets, Child, Operands};
use since::Held;
use untils::Asks;

// What a call is given: the rule, the words of the event or notice, and the time stamps that are then retained. The rule is there for the contract, which reads the event by its arities.
#[derive(Clone, Copy)]
pub struct Given<'a> {
    pub rule: &'a [u8],
    pub event: &'a [u32],
    pub retained: Retained<'a>,
}

// Puts in a child's set at point j.
fn copy_at(lowest: u32, c: &Child, sets: CallSets, j: Point, out: &mut [u32], n: usize) -> usize
    requires set_stands { SetThere sets c.now j }
    requires set_room { SetRoom out.old n }
    ensures { Added lowest out.old n out.new result (sets_of sets.entry c.now j) }
{
    let p = sets.part(c, j);
    kinds::copy(lowest, sets.rows, p.from, p.to, out, n)
}

// The same where the test passed, into an empty set.
fn copy_if(ok: bool, lowest: u32, c: &Child, sets: CallSets, j: Point, out: &mut [u32]) -> usize
    requires set_stands { SetThere sets c.now j }
    requires set_room { SetRoom out.old 0 }
    ensures { Added lowest out.old 0 out.new result (cond ok (sets_of sets.entry c.now j) []) }
{
    if ok {
        return copy_at(lowest, c, sets, j, out, 0);
    }
    0
}

// "and" at point i.
fn and_at(of: &Operands, sets: CallSets, i: Point, out: &mut [u32]) -> usize
    requires set_stands { SetThere sets of.now.left i }
    requires set_stands_2 { SetThere sets of.now.right i }
    requires set_room { SetRoom out.old 0 }
    ensures { Added of.now.lowest out.old 0 out.new result (and_rows (in_mask of.now.left.mask) (in_mask of.now.right.mask) (sets_of sets.entry of.now.left i) (sets_of sets.entry of.now.right i)) }
{
    let p = sets.part(&of.left, i);
    let q = sets.part(&of.right, i);
    let f = of.left.mask;
    let g = of.right.mask;
    kinds::and(
        of.lowest, f, g, sets.rows, p.from, p.to, q.from, q.to, out, 0,
    )
}

// "and not" at point i.
fn and_not_at(of: &Operands, sets: CallSets, i: Point, out: &mut [u32]) -> usize
    requires set_stands { SetThere sets of.now.left i }
    requires set_stands_2 { SetThere sets of.now.right i }
    requires set_room { SetRoom out.old 0 }
    ensures { Added of.now.lowest out.old 0 out.new result (select (λ u. not (is_there (look_up of.now.right.lowest (cut_to (in_mask of.now.right.mask) (valuation_of u)) (sets_of sets.entry of.now.right i)))) (sets_of sets.entry of.now.left i)) }
{
    let p = sets.part(&of.left, i);
    let q = sets.part(&of.right, i);
    let g = of.right.mask;
    let order = of.right.lowest;
    kinds::and_not(
        of.lowest, g, order, sets.rows, p.from, p.to, q.from, q.to, out, 0,
    )
}

// "keep" at point i.
fn keep_at(
    of: &Operands,
    c: Comparison,
    s: Sides,
    sets: CallSets,
    i: Point,
    out: &mut [u32],
) -> usize
    requires set_stands { SetThere sets of.now.left i }
    requires set_room { SetRoom out.old 0 }
    ensures { Added of.now.lowest out.old 0 out.new result (select (λ u. compares c (value (valuation_of u) s.first) (value (valuation_of u) s.second)) (sets_of sets.entry of.now.left i)) }
{
    let p = sets.part(&of.left, i);
    let first = s.first;
    let second = s.second;
    kinds::keep(of.lowest, c, first, second, sets.rows, p.from, p.to, out, 0)
}

// "or" at point i.
fn or_at(of: &Operands, sets: CallSets, i: Point, out: &mut [u32]) -> usize
    requires set_stands { SetThere sets of.now.left i }
    requires set_stands_2 { SetThere sets of.now.right i }
    requires set_room { SetRoom out.old 0 }
    ensures { Added of.now.lowest out.old 0 out.new result (sets_of sets.entry of.now.left i ++ sets_of sets.entry of.now.right i) }
{
    let k = copy_at(of.lowest, &of.left, sets, i, out, 0);
    copy_at(of.lowest, &of.right, sets, i, out, k)
}

// "exists" at point i.
fn exists_at(of: &Operands, x: u32, sets: CallSets, i: Point, out: &mut [u32]) -> usize
    requires set_stands { SetThere sets of.now.left i }
    requires set_room { SetRoom out.old 0 }
    ensures { Added of.now.lowest out.old 0 out.new result (map (λ u. cut_to (λ y. not (eqb y x)) (valuation_of u)) (sets_of sets.entry of.now.left i)) }
{
    let p = sets.part(&of.left, i);
    kinds::exists(of.lowest, x, sets.rows, p.from, p.to, out, 0)
}

// "previous" at point i: nothing at the first point.
fn previous_at(
    of: &Operands,
    w: Window,
    sets: CallSets,
    retained: Retained,
    i: Point,
    out: &mut [u32],
) -> usize
    requires set_stands { 0 < i.0 → SetThere sets of.now.left (point_before i) }
    requires set_room { SetRoom out.old 0 }
    ensures { Added of.now.lowest out.old 0 out.new result (cond (ltb 0 i.0 && in_window w (elapsed (stamps_of retained.entry (point_before i)) (stamps_of retained.entry i))) (sets_of sets.entry of.now.left (point_before i)) []) }
{
    if 0 < i.0 {
        let j = Point(i.0 - 1);
        let then = retained.time(j);
        let here = retained.time(i);
        let ok = untils::due(w, then, here);
        return copy_if(ok, of.lowest, &of.left, sets, j, out);
    }
    0
}

// "next" at point i, where the child has settled the point after.
fn next_at(
    of: &Operands,
    w: Window,
    sets: CallSets,
    retained: Retained,
    i: Point,
    out: &mut [u32],
) -> usize
    requires i_bound { (i.0 + 1 < 4294967296) × SetThere sets of.now.left (point (i.0 + 1)) }
    requires set_room { SetRoom out.old 0 }
    ensures { Added of.now.lowest out.old 0 out.new result (cond (in_window w (elapsed (stamps_of retained.entry i) (stamps_of retained.entry (point_after i)))) (sets_of sets.entry of.now.left (point_after i)) []) }
{
    let j = Point(i.0 + 1);
    let here = retained.time(i);
    let then = retained.time(j);
    let ok = untils::due(w, here, then);
    copy_if(ok, of.lowest, &of.left, sets, j, out)
}

// The until kinds of two children at point i, over the points that both have settled.
fn until_at(
    asks: Asks,
    of: &Operands,
    sets: CallSets,
    retained: Retained,
    i: Point,
    out: &mut [u32],
) -> usize
    requires stand { BothStand sets of.now i (min of.now.left.count of.now.right.count) }
    requires set_room { SetRoom out.old 0 }
    ensures { Added of.now.lowest out.old 0 out.new result (until_rows (stamps_of retained.entry) (min of.now.left.count of.now.right.count) asks.window (test_of asks.left of.now sets.entry) (sets_of sets.entry of.now.right) i) }
{
    let m = of.left.count.min(of.right.count);
    untils::until(asks, of, sets, retained, i, m, out, 0)
}

// The valuations of a node at point i, put into out; 33 where they are more than 32.
pub fn settle_point(
    node: Node,
    of: &Operands,
    given: &Given,
    sets: CallSets,
    held: Held,
    i: Point,
    out: &mut [u32],
) -> usize
    requires asked { asked given.now.rule.now given.now.event.now sets.rows.now sets.at.now held.ages.now held.values.now of.now.left of.now.right of.now.lowest held.start i node }
    requires set_room { SetRoom out.old 0 }
    ensures { PointSettled given.now.rule.now given.now.event.now sets.entry.rows.now sets.entry.at.now given.now.retained.times.now given.now.retained.base held.entry.ages.now held.entry.values.now of.now.left of.now.right of.now.lowest held.entry.start i node out.new result }
{
    let retained = given.retained;
    let settled = of.left.count;
    match node {
        Node::Atom(r, ts) => kinds::atom(of.lowest, u32::from(r), ts, given.event, out, 0),
        Node::And(_, _) => and_at(of, sets, i, out),
        Node::AndNot(_, _) => and_not_at(of, sets, i, out),
        Node::Keep(_, c, s) => keep_at(of, c, s, sets, i, out),
        Node::Or(_, _) => or_at(of, sets, i, out),
        Node::Exists(_, x) => exists_at(of, x, sets, i, out),
        Node::Previous(_, w) => previous_at(of, w, sets, retained, i, out),
        Node::Next(_, w) => next_at(of, w, sets, retained, i, out),
        Node::Since(_, _, window) => {
            let asks = Asks {
                left: Left::Holds,
                window,
            };
            since::rows_at(asks, of, sets, retained, held, i, out)
        }
        Node::NotSince(_, _, window) => {
            let asks = Asks {
                left: Left::Denied,
                window,
            };
            since::rows_at(asks, of, sets, retained, held, i, out)
        }
        Node::Until(_, _, window) => {
            let asks = Asks {
                left: Left::Holds,
                window,
            };
            until_at(asks, of, sets, retained, i, out)
        }
        Node::NotUntil(_, _, window) => {
            let asks = Asks {
                left: Left::Denied,
                window,
            };
            until_at(asks, of, sets, retained, i, out)
        }
        Node::Once(_, window) => {
            let asks = Asks {
                left: Left::Always,
                window,
            };
            let once = Operands {
                lowest: of.lowest,
                left: of.left,
                right: of.left,
            };
            since::rows_at(asks, &once, sets, retained, held, i, out)
        }
        Node::Eventually(_, w) => {
            untils::eventually(of.lowest, w, &of.left, sets, retained, i, settled, out, 0)
        }
    }
}

// The sets of right of since and until: those of the one child where there is one.
fn right_of(children: Children, of: &Operands) -> Child
    ensures { result ≡ right_in children of.now.left of.now.right }
{
    match children {
        Children::One(_) => of.left,
        Children::None | Children::Two(_, _) => of.right,
    }
}

// The node's pairs at point i, put to the front of ages and values, as many as the ages have room for; one more than that where there are more. Only since has any. The rule and the event are there for the contract.
pub fn settle_pairs(
    node: Node,
    of: &Operands,
    given: &Given,
    sets: CallSets,
    held: Held,
    i: Point,
    ages: &mut [u32],
    values: &mut [u32],
) -> usize
    requires asked { asked given.now.rule.now given.now.event.now sets.rows.now sets.at.now held.ages.now held.values.now of.now.left of.now.right of.now.lowest held.start i node }
    requires pairs_there { PairsThere ages.old values.old (length ages.old) }
    ensures { PairsSettled sets.entry.rows.now sets.entry.at.now given.now.retained.times.now given.now.retained.base held.entry.ages.now held.entry.values.now of.now.left of.now.right of.now.lowest held.entry.start i node ages.old values.old ages.new values.new result }
{
    let view = rulenodes::view_of(node);
    match view.times {
        Times::Past => {
            let asks = Asks {
                left: view.left,
                window: view.window,
            };
            let both = Operands {
                lowest: of.lowest,
                left: of.left,
                right: right_of(view.children, of),
            };
            since::pairs_at(asks, &both, sets, given.retained, held, i, ages, values)
        }
        _ => 0,
    }
}
