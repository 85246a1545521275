// What is asked of left over a run of points.
ghost use Rattle.untils.specs.Until.{Stands};

use meaning::{Left, Point};
use room::{CallSets, Child};

// What is asked of left at every point from `from` on before `end`, where its sets stand.
#[derive(Clone, Copy)]
pub struct Lead<'a> {
    pub left: Left,
    pub a: Child,
    pub sets: CallSets<'a>,
    pub from: Point,
    pub end: Point,
    pub ghost stand: { Stands sets a from end.0 },
}
