// The point from which on each node's rows are kept for its parent.
#![tactic(auto)]

ghost use Rattle.std.specs.Prelude.{◌≡◌, ℕ, ◌+◌, ◌*◌, ◌≤◌, ◌<◌, length, get_or};
ghost use mathlib.Core.List.{[], ◌∷◌, Memᴰ};
ghost use Rattle.meaning.specs.Outcome.{given};
ghost use Rattle.meaning.specs.View.{view_of, children_in};
ghost use Rattle.meaning.specs.RuleFile.{Accepted, checking, node_count, node_at};
ghost use Rattle.method.specs.Step.{first_wanted, wanted_from};
ghost use Rattle.progress.specs.Bounds.{Within};
ghost use Rattle.wanted.specs.Wants.{Wants};

use meaning::{Children, Point, Times};

// The first point of a child that an unsettled point of its parent, node x, consults, with p points of the parent settled. Only the node's kind is read.
fn first_wanted(rule: &[u8], x: u8, p: u32) -> Point
    requires { (12 + 4 * x + 4 ≤ length rule.now) × (p < 4294967295) }
    ensures { result ≡ first_wanted (view_of (node_at rule.now x)).times p }
{
    match rulenodes::times_at(rule, x) {
        Times::Before => Point(p.saturating_sub(1)),
        Times::After => Point(p + 1),
        Times::Here | Times::Past | Times::Future => Point(p),
    }
}

// A child's rows are wanted from a point on, but no later than behind those that it has settled.
fn want_child(counts: &[u32], first: Point, c: u8, out: &mut [u32])
    requires { (c < length counts.now) × (c < length out.old) }
    ensures { Wants counts.now first (c ∷ []) out.old out.new }
{
    let count = counts[c as usize];
    out[c as usize] = count.min(first.0);
}

// The same for a node's children.
fn want_children(counts: &[u32], first: Point, children: Children, out: &mut [u32])
    requires { (c : ℕ) → Memᴰ c (children_in children) → (c < length counts.now) × (c < length out.old) }
    ensures { Wants counts.now first (children_in children) out.old out.new }
{
    match children {
        Children::None => {}
        Children::One(a) => want_child(counts, first, a, out),
        Children::Two(a, b) => {
            want_child(counts, first, a, out);
            want_child(counts, first, b, out);
        }
    }
}

// For each node of an accepted rule, from how many points each has settled, the point from which on its rows are kept. Each node is read once: its parent hands it down.
pub fn wanted(rule: &[u8], counts: &[u32], out: &mut [u32])
    requires rule_value { (a : Accepted) × (checking rule.now ≡ given a) }
    requires rule_in_bounds { (node_count rule.now ≤ length counts.now) × (node_count rule.now ≤ length out.old) × Within 4294967294 counts.now }
    ensures { (x : ℕ) → x < node_count rule.now → get_or out.new x 0 ≡ (wanted_from rule.now (λ y. get_or counts.now y 0) x).0 }
{
    let n = rule[2];
    for x in 0..n {
        let first = first_wanted(rule, x, counts[x as usize]);
        let children = rulenodes::children_at(rule, x);
        want_children(counts, first, children, out);
    }
    let last = (n - 1) as usize;
    out[last] = counts[last];
}
