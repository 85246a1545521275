// Where the sets of one call stand.
#![tactic(auto)]

ghost use Rattle.std.specs.Prelude.{◌≡◌, ◌+◌, ◌-◌, ◌≤◌, ◌<◌, length, get_or};

use meaning::Point;

// The sets of a node's child: set `first` is the one at point `low`, and those at later points follow it; how many points the child has settled, and the mask of its free variables and the lowest of them.
#[derive(Clone, Copy)]
pub struct Child {
    pub first: usize,
    pub low: Point,
    pub count: u32,
    pub mask: u8,
    pub lowest: u32,
}

// What a node's evaluation works on: the lowest free variable of the node, by which its own set is in order, and its children. Where there is one child it is left.
#[derive(Clone, Copy)]
pub struct Operands {
    pub lowest: u32,
    pub left: Child,
    pub right: Child,
}

// The rows of one set, from..to.
#[derive(Clone, Copy)]
pub struct Part {
    pub from: usize,
    pub to: usize,
}

// The sets of one call, one after the other: their rows, and for each set the row where it begins; after the last stands where the next would begin.
#[derive(Clone, Copy)]
pub struct CallSets<'a> {
    pub rows: &'a [u32],
    pub at: &'a [u32],
}

impl CallSets<'_> {
    // The rows of a child's set at point j.
    pub fn part(self, c: &Child, j: Point) -> Part
        requires { (c.now.low.0 ≤ j.0) × (c.now.first + (j.0 - c.now.low.0) + 1 < length self.at.now) }
        ensures { (result.from ≡ get_or self.entry.at.now (c.now.first + (j.0 - c.now.low.0)) 0) × (result.to ≡ get_or self.entry.at.now (c.now.first + (j.0 - c.now.low.0) + 1) 0) }
    {
        let q = c.first + (j.0 - c.low.0) as usize;
        Part {
            from: self.at[q] as usize,
            to: self.at[q + 1] as usize,
        }
    }
}
