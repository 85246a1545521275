// The pairs that were held.
ghost use Rattle.std.specs.Prelude.{length};
ghost use Rattle.kinds.specs.Kinds.{PairsThere};

use meaning::Point;

// The pairs that were held at the point before `start`, which is the first newly settled one: their ages, and their rows of four words each.
#[derive(Clone, Copy)]
pub struct Held<'a> {
    pub ages: &'a [u32],
    pub values: &'a [u32],
    pub start: Point,
    pub ghost there: { PairsThere ages.now values.now (length ages.now) },
}
