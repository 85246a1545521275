// The numbers and places of 01 for the refusals.
#![tactic(auto)]

ghost use Rattle.std.specs.Prelude.{◌≡◌};
ghost use Rattle.rulefile.specs.Checked.{answer_of};
ghost use Rattle.limits.specs.Weighs.{refusal_of};
ghost use Rattle.refusals.specs.Numbered.{numbered};

use limits::Refusal;
use rulefile::{AcceptedRule, RuleRefusal};

// A refusal's number and place.
#[derive(Clone, Copy)]
pub struct Numbered(pub u32, pub u32);

// The refusal of a rule; 0 and 0 where it is accepted.
pub fn of_rule(c: Result<AcceptedRule, RuleRefusal>) -> Numbered
    ensures { result ≡ numbered (answer_of c) }
{
    match c {
        Ok(_) => Numbered(0, 0),
        Err(RuleRefusal::Cut) => Numbered(1, 0),
        Err(RuleRefusal::OtherVersion) => Numbered(2, 0),
        Err(RuleRefusal::SizeOut) => Numbered(3, 0),
        Err(RuleRefusal::Misshapen(x)) => Numbered(4, x as u32),
        Err(RuleRefusal::WindowOut(x)) => Numbered(5, x as u32),
        Err(RuleRefusal::FreeBroken(x)) => Numbered(6, x as u32),
        Err(RuleRefusal::NotOneParent(x)) => Numbered(7, x as u32),
    }
}

// The refusal of an event.
pub fn of_event(r: Refusal) -> Numbered
    ensures { result ≡ numbered (refusal_of r) }
{
    match r {
        Refusal::NotWellFormed => Numbered(8, 0),
        Refusal::NotAnEvent => Numbered(9, 0),
        Refusal::RowOut(k) => Numbered(10, k),
        Refusal::TimeFalls => Numbered(11, 0),
        Refusal::LogFull => Numbered(12, 0),
        Refusal::Crowded(x) => Numbered(13, x as u32),
        Refusal::Backlog => Numbered(14, 0),
        Refusal::KeptOver => Numbered(15, 0),
        Refusal::BufferShort(n) => Numbered(16, n),
    }
}
