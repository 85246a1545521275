// The types and limits that definitions and code share. They hold plain numbers; what the numbers mean is in specs/.

#![tactic(auto)]

// Rows at most that a node has at a point, or an event.
pub const MOST_ROWS: u32 = 32;

// Open points at most.
pub const MOST_OPEN: u32 = 32;

// Nodes at most that a rule has, and the bytes of a rule that has so many.
pub const MOST_NODES: usize = 32;

pub const RULE_BYTES: usize = 12 + 20 * MOST_NODES;

// Times at most that are retained, and the words for them: one more is at hand in a call.
pub const MOST_TIMES: usize = 64;

pub const TIME_WORDS: usize = MOST_TIMES + 1;

// Entries at most that are kept.
pub const MOST_KEPT: usize = 512;

// Points at most that a log has.
pub const MOST_POINTS: u32 = 10_000_000;

// A point's number in the log, from 0: the paper's i.
#[derive(Clone, Copy)]
pub struct Point(pub u32);

// A point's time stamp in seconds: the paper's τ.
#[derive(Clone, Copy)]
pub struct Stamp(pub u32);

// Where a log ends: how many points it has, and the latest known time, of a point or a notice.
#[derive(Clone, Copy)]
pub struct LogEnd {
    pub points: u32,
    pub latest: Stamp,
}

// A term is a variable, by its number, or a constant.
#[derive(Clone, Copy)]
pub enum Term {
    Variable(u32),
    Constant(u32),
}

// An atom's terms: the first `count` of the four. They stand before their count, where "keep" has its two, so that a compiled node isn't put together by overlapping parts.
#[derive(Clone, Copy)]
pub struct Terms {
    pub first: Term,
    pub second: Term,
    pub third: Term,
    pub fourth: Term,
    pub count: u8,
}

// The two terms that "keep" compares.
#[derive(Clone, Copy)]
pub struct Sides {
    pub first: Term,
    pub second: Term,
}

// How "keep" compares them. With `ShiftedLess` it is "keep-shifted": the number is added to the first term.
#[derive(Clone, Copy)]
pub enum Comparison {
    Equal,
    Different,
    Less,
    NotLess,
    ShiftedLess(i32),
}

// The window [start, end); an end of 0 means no end.
#[derive(Clone, Copy)]
pub struct Window {
    pub start: u32,
    pub end: u32,
}

// A node of a rule file: one of the fifteen kinds with its children, by number, its terms or its window. "keep" and "keep-shifted" are one case, and differ in the comparison.
#[derive(Clone, Copy)]
pub enum Node {
    Atom(u8, Terms),
    And(u8, u8),
    AndNot(u8, u8),
    Keep(u8, Comparison, Sides),
    Or(u8, u8),
    Exists(u8, u32),
    Previous(u8, Window),
    Next(u8, Window),
    Since(u8, u8, Window),
    NotSince(u8, u8, Window),
    Until(u8, u8, Window),
    NotUntil(u8, u8, Window),
    Once(u8, Window),
    Eventually(u8, Window),
}

// A node's children, by number.
#[derive(Clone, Copy)]
pub enum Children {
    None,
    One(u8),
    Two(u8, u8),
}

// What since and until ask of left at a point: that it holds, that it doesn't, or nothing.
#[derive(Clone, Copy)]
pub enum Left {
    Holds,
    Denied,
    Always,
}

// The points of its children that a node looks at for a point: that point, the one before, the one after, the earlier ones, or the later ones.
#[derive(Clone, Copy)]
pub enum Times {
    Here,
    Before,
    After,
    Past,
    Future,
}

// What all but a kind's own operation asks of a node. A kind without a window is viewed with [0, no end), and one that is no since or until asks nothing of left.
#[derive(Clone, Copy)]
pub struct View {
    pub children: Children,
    pub times: Times,
    pub left: Left,
    pub window: Window,
}

// A node's head, as it stands in a rule file.
#[derive(Clone, Copy)]
pub struct Head {
    pub kind: u8,
    pub left: u8,
    pub right: u8,
    pub mask: u8,
}

// A node's body, as it stands in a rule file.
#[derive(Clone, Copy)]
pub struct Body {
    pub word0: u32,
    pub word1: u32,
    pub word2: u32,
    pub word3: u32,
}
