// What is printed for a taking's answer and at the end of a run, put into lent bytes from a place on.
ghost use Rattle.std.specs.Prelude.{◌+◌, ◌≤◌, length};
ghost use Rattle.writer.specs.Puts.{Put};
ghost use Rattle.lent_state.specs.Lent.{answer_of};
ghost use Rattle.monitor.specs.State.{stored};
ghost use Rattle.lines.specs.Answers.{answer_text};
ghost use Rattle.listing.specs.Ends.{cut_text, figures_text, end_text};

use limits::Refusal;
use lines::{Next, put_last, put_refused, put_report};
use monitor::State;
use refusals::of_event;

// Puts what a taking answered; `report` is the buffer that it was lent.
pub fn put_answer(out: &mut [u8], at: usize, answer: Result<u32, Refusal>, report: &[u32]) -> usize
    requires { (at + 53504 ≤ length out.old) × (length report.now ≤ 4326) }
    ensures put { Put out.old at (answer_text (answer_of answer) report.now) out.new result }
    ensures upper_bound { result ≤ at + 53504 }
{
    match answer {
        Ok(_) => put_report(out, at, report),
        Err(refusal) => put_refused(out, at, of_event(refusal)),
    }
}

// Puts the refusal of an event that is cut short.
fn put_cut(out: &mut [u8], at: usize, next: Next) -> usize
    requires { at + 64 ≤ length out.old }
    ensures { Put out.old at (cut_text next) out.new result }
{
    match next {
        Next::Cut => put_refused(out, at, of_event(Refusal::NotAnEvent)),
        Next::Event(_) => at,
        Next::Ended => at,
    }
}

// Puts the figures of a state from a place on.
fn put_figures(out: &mut [u8], at: usize, state: State) -> usize
    requires { at + 64 ≤ length out.old }
    ensures { Put out.old at (figures_text (stored state)) out.new result }
{
    let kept = monitor::kept(state);
    match monitor::open_points(state) {
        Some(n) => put_last(out, at, n, kept),
        None => put_refused(out, at, of_event(Refusal::NotWellFormed)),
    }
}

// Puts what ends a run: why no further event is read, and the last line.
pub fn put_end(out: &mut [u8], at: usize, next: Next, state: State) -> usize
    requires { at + 128 ≤ length out.old }
    ensures put { Put out.old at (end_text next (stored state)) out.new result }
    ensures upper_bound { result ≤ at + 128 }
{
    let after = put_cut(out, at, next);
    put_figures(out, after, state)
}
