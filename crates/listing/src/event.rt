// An event taken in place, and its answer put behind the text so far.
ghost use Rattle.std.specs.Prelude.{◌+◌, ◌≤◌, length};
ghost use Rattle.lent_state.specs.Lent.{lent_in, SameWords};
ghost use Rattle.listing.specs.Events.{EventAnswered};

use crate::text::put_answer;
use lent_state::Taking;

// Takes an event in the state that is lent, and puts what is printed for it from `at` on; where the text ends.
pub fn take_event(
    lent: &mut Taking<'_>,
    event: &[u32],
    report: &mut [u32],
    text: &mut [u8],
    at: usize,
) -> usize
    requires { (at + 53504 ≤ length text.old) × (length report.old ≤ 4326) }
    ensures event_answered { EventAnswered (lent_in lent.old) event.now report.old text.old at (lent_in lent.new) report.new text.new result }
    ensures same { SameWords lent.old lent.new }
    ensures end_bound { result ≤ at + 53504 }
{
    let answer = lent_state::take(lent, event, report);
    put_answer(text, at, answer, report)
}
