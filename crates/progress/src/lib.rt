// How many points each node has settled, from the time stamps and the latest known time alone; and how many points words add.
#![tactic(auto)]

ghost use Rattle.std.specs.Prelude.{◌≡◌, ◌+◌, ◌-◌, ◌*◌, ◌≤◌, ◌<◌, min, cond, map, length, get_or, ltb, leb};
ghost use Rattle.meaning.specs.Log.{point};
ghost use Rattle.meaning.specs.View.{view_of, children_in};
ghost use Rattle.meaning.specs.RuleFile.{node_count, bodies, body_at, node_at};
ghost use Rattle.method.specs.Stored.{least_of};
ghost use Rattle.method.specs.Counts.{scan, until_count, advance};
ghost use Rattle.method.specs.Step.{points_added};
ghost use Rattle.progress.specs.Filled.{Filled};
ghost use Rattle.progress.specs.Stamps.{stamps_of};

use meaning::{Children, LogEnd, Point, Stamp, Times};

// A word of a slice, 0 past its end.
fn word_in(words: &[u32], k: usize) -> u32
    ensures { result ≡ get_or words.now k 0 }
{
    words.get(k).copied().unwrap_or(0)
}

// The time stamps that are retained: the first is point base's.
#[derive(Clone, Copy)]
pub struct Retained<'a> {
    pub times: &'a [u32],
    pub base: Point,
}

impl Retained<'_> {
    // The time stamp of point i.
    pub fn time(self, i: Point) -> Stamp
        ensures { result ≡ stamps_of self.entry i }
    {
        let k = i.0.saturating_sub(self.base.0);
        Stamp(word_in(self.times, k as usize))
    }
}

// Whether a window's end d after a stamp comes no later than the bound.
fn ends_by(t: Stamp, d: u32, bound: Stamp) -> bool
    ensures { result ≡ leb (t.0 + d) bound.0 }
{
    u64::from(t.0) + u64::from(d) <= u64::from(bound.0)
}

// The first point, from `from` on and before m, whose window has not ended by the bound; where each has, the one after them.
fn first_open(retained: Retained, d: u32, bound: Stamp, from: Point, m: Point) -> Point
    ensures { result ≡ scan (stamps_of retained.entry) d bound from (m.0 - from.0) }
{
    for i in from.0..m.0 {
        if !ends_by(retained.time(Point(i)), d, bound) {
            return Point(i);
        }
    }
    Point(from.0.max(m.0))
}

// The time by which a window has to end: that of the first point that the children have not settled, or where they have settled all the latest known time.
fn bound(retained: Retained, log: LogEnd, m: u32) -> Stamp
    ensures { result ≡ cond (ltb m log.points) (stamps_of retained.entry (point m)) log.latest }
{
    if m < log.points {
        return retained.time(Point(m));
    }
    log.latest
}

// How many points until has settled, where its children have settled m points of a log that ends so.
pub fn until_count(retained: Retained, log: LogEnd, d: u32, m: u32, from: u32) -> u32
    ensures { result ≡ until_count (stamps_of retained.entry) log d m from }
{
    let by = bound(retained, log, m);
    first_open(retained, d, by, Point(from), Point(m)).0
}

// The count of a child, 0 where there is none.
fn count_at(counts: &[u32], y: u8) -> u32
    ensures { result ≡ get_or counts.now y 0 }
{
    word_in(counts, y as usize)
}

// The least count of some children, and no more than n.
fn least_of(counts: &[u32], n: u32, children: Children) -> u32
    ensures { result ≡ least_of n (map (λ y. get_or counts.now y 0) (children_in children)) }
{
    match children {
        Children::None => n,
        Children::One(a) => n.min(count_at(counts, a)),
        Children::Two(a, b) => n.min(count_at(counts, a)).min(count_at(counts, b)),
    }
}

// One more, and no more than n.
fn one_more(n: u32, m: u32) -> u32
    ensures { result ≡ min n (m + 1) }
{
    n.min(m.saturating_add(1))
}

// How many points node x has settled that is an until, where its children have settled m points.
fn until_of(rule: &[u8], retained: Retained, log: LogEnd, m: u32, from: &[u32], x: u8) -> u32
    requires { (length rule.now ≡ 12 + 20 * node_count rule.now) × (x < node_count rule.now) }
    ensures { result ≡ until_count (stamps_of retained.entry) log (body_at (bodies rule.now) x).word1 m (get_or from.now x 0) }
{
    until_count(
        retained,
        log,
        rulenodes::end_at(rule, x),
        m,
        count_at(from, x),
    )
}

// The count of node x, from the counts of the nodes below it and a count that is not too high. Of the rule the node's head is read, and for until the window's end.
fn count_of(rule: &[u8], retained: Retained, log: LogEnd, below: &[u32], from: &[u32], x: u8) -> u32
    requires { (length rule.now ≡ 12 + 20 * node_count rule.now) × (x < node_count rule.now) }
    ensures { result ≡ advance (stamps_of retained.entry) log (λ y. get_or below.now y 0) (get_or from.now x 0) (view_of (node_at rule.now x)) }
{
    let m = least_of(below, log.points, rulenodes::children_at(rule, x));
    match rulenodes::times_at(rule, x) {
        Times::Here | Times::Past => m,
        Times::Before => one_more(log.points, m),
        Times::After => m.saturating_sub(1),
        Times::Future => until_of(rule, retained, log, m, from, x),
    }
}

// The counts of every node of a rule, lowest first; words past them stay.
pub fn counts(rule: &[u8], retained: Retained, log: LogEnd, from: &[u32], out: &mut [u32])
    requires { (length rule.now ≡ 12 + 20 * node_count rule.now) × (node_count rule.now ≤ length out.old) }
    ensures { Filled rule.now (stamps_of retained.entry) log from.now out.old out.new }
{
    let nodes = rule[2];
    for x in 0..nodes {
        let k = x as usize;
        out[k] = count_of(rule, retained, log, &out[..k], from, x);
    }
}

// How many points words add: an event one, which has two words or more, and a notice, which is one word, none.
pub fn points_added(words: &[u32]) -> u32
    ensures { result ≡ points_added words.now }
{
    u32::from(1 < words.len())
}
