// The monitor: its state, starting it, taking events and notices, saving it and reading it in, and the figures to be read off it.
#![tactic(auto)]

ghost use Rattle.std.specs.Prelude.{◌≡◌, ◌≤◌, length};
ghost use Rattle.meaning.specs.Outcome.{most_bytes};
ghost use Rattle.meaning.specs.Keeper.{event as event_of, notice};
ghost use Rattle.method.specs.Step.{kept_stored};
ghost use Rattle.events.specs.Answers.{fed_of};
ghost use Rattle.figures.specs.Fronts.{open_of, open_answer};
ghost use Rattle.entries.specs.Appended.{at_front};
ghost use Rattle.monitor.specs.State.{end_at, stored, start_state, blank};
ghost use Rattle.monitor.specs.Promises.{Starts, Takes, Saves, Restores};

use events::Handed;
use image_words::{NotAnImage, Reading, Saving, Unsaved};
use lent_state::{Loan, Taking};
use limits::Refusal;
use meaning::{LogEnd, MOST_KEPT, RULE_BYTES, Stamp, TIME_WORDS};
use rulefile::{AcceptedRule, RuleRefusal};

// What is kept between calls, by value: the rule's bytes and how many they are; the points accepted; the latest known time, of a point or a notice; the retained times and how many they are; the kept entries, each with its owner (a node twice, and 1 more for a pair), the number of its point or its age, and its four values; and their count.
#[repr(C)]
#[derive(Clone, Copy)]
pub struct State {
    pub rule: [u8; RULE_BYTES],
    pub bytes: u32,
    pub points: u32,
    pub latest: u32,
    pub times: [u32; TIME_WORDS],
    pub retained: u32,
    pub owners: [u32; MOST_KEPT],
    pub numbers: [u32; MOST_KEPT],
    pub values: [u32; MOST_KEPT * 4],
    pub count: u32,
}

// What starting gives: the answer of checking the rule, and where it is accepted the state of an empty log. The state stands beside the answer: C is given the state of zeros that `Starts` promises of a refusal.
#[derive(Clone, Copy)]
pub struct Started {
    pub checked: Result<AcceptedRule, RuleRefusal>,
    pub state: State,
}

// What a taking gives back: the state, which a refusal leaves as it was, and the answer: the words written or the refusal.
#[derive(Clone, Copy)]
pub struct Step {
    pub state: State,
    pub answer: Result<u32, Refusal>,
}

// What reading in gives: the answer, the words read or that they are no image; and the state that was read, or one of zeros.
#[derive(Clone, Copy)]
pub struct Restored {
    pub read: Result<u32, NotAnImage>,
    pub state: State,
}

// A state of zeros.
fn zeros() -> State
    ensures { result ≡ blank }
{
    State {
        rule: [0; RULE_BYTES],
        bytes: 0,
        points: 0,
        latest: 0,
        times: [0; TIME_WORDS],
        retained: 0,
        owners: [0; MOST_KEPT],
        numbers: [0; MOST_KEPT],
        values: [0; MOST_KEPT * 4],
        count: 0,
    }
}

// Copies bytes to the front of others; those behind them stay.
fn copy_bytes(from: &[u8], to: &mut [u8])
    requires { length from.now ≤ length to.old }
    ensures { to.new ≡ at_front from.now to.old }
{
    to[..from.len()].copy_from_slice(from);
}

// A state with no points, under a rule.
fn empty(rule: &[u8]) -> State
    requires { length rule.now ≤ most_bytes }
    ensures { result ≡ start_state rule.now }
{
    let mut bytes = [0u8; RULE_BYTES];
    copy_bytes(rule, &mut bytes);
    State {
        rule: bytes,
        bytes: rule.len() as u32,
        ..zeros()
    }
}

// Starts a state: any bytes. Where the rule is refused the state is one of zeros.
pub fn start(rule: &[u8]) -> Started
    ensures { Starts rule.now result }
{
    let checked = rulefile::check(rule);
    let state = match checked {
        Ok(_) => empty(rule),
        Err(_) => zeros(),
    };
    Started { checked, state }
}

// Where a state's log ends.
fn end_of(state: State) -> LogEnd
    ensures { result ≡ end_at state.points state.latest }
{
    LogEnd {
        points: state.points,
        latest: Stamp(state.latest),
    }
}

// Takes what is handed in: the one way for both.
fn take_handed(state: State, handed: Handed<'_>, report: &mut [u32]) -> Step
    ensures { Takes state (fed_of handed.entry) report.old result report.new }
{
    let mut times = state.times;
    let mut owners = state.owners;
    let mut numbers = state.numbers;
    let mut values = state.values;
    let mut lent: Taking<'_> = Loan {
        rule: &state.rule,
        bytes: state.bytes,
        log: end_of(state),
        times: &mut times,
        retained: state.retained,
        owners: &mut owners,
        numbers: &mut numbers,
        values: &mut values,
        count: state.count,
    };
    let answer = lent_state::take_handed(&mut lent, handed, report);
    let log = lent.log;
    let retained = lent.retained;
    let count = lent.count;
    let state = State {
        points: log.points,
        latest: log.latest.0,
        times,
        retained,
        owners,
        numbers,
        values,
        count,
        ..state
    };
    Step { state, answer }
}

// Takes an event: any state, any event words, any report buffer.
pub fn take(state: State, event: &[u32], report: &mut [u32]) -> Step
    ensures { Takes state (event_of event.now) report.old result report.new }
{
    take_handed(state, Handed::Event(event), report)
}

// Takes a clock notice, a time and no point: any state, any time, any report buffer.
pub fn notice(state: State, time: u32, report: &mut [u32]) -> Step
    ensures { Takes state (notice time) report.old result report.new }
{
    take_handed(state, Handed::Notice(&[time]), report)
}

// Saves a state as an image: any state, any buffer.
pub fn save(running: State, buffer: &mut [u32]) -> Result<u32, Unsaved>
    ensures { Saves running buffer.old result buffer.new }
{
    let lent: Saving<'_> = Loan {
        rule: &running.rule,
        bytes: running.bytes,
        log: end_of(running),
        times: &running.times,
        retained: running.retained,
        owners: &running.owners,
        numbers: &running.numbers,
        values: &running.values,
        count: running.count,
    };
    image_words::save(lent, buffer)
}

// Reads an image in: any words. Where they are no image the state is one of zeros.
pub fn restore(words: &[u32]) -> Restored
    ensures { Restores words.now result }
{
    let empty = zeros();
    let mut rule = empty.rule;
    let mut times = empty.times;
    let mut owners = empty.owners;
    let mut numbers = empty.numbers;
    let mut values = empty.values;
    let mut lent: Reading<'_> = Loan {
        rule: &mut rule,
        bytes: empty.bytes,
        log: end_of(empty),
        times: &mut times,
        retained: empty.retained,
        owners: &mut owners,
        numbers: &mut numbers,
        values: &mut values,
        count: empty.count,
    };
    let read = image_words::restore(words, &mut lent);
    let Loan {
        bytes,
        log: end,
        retained,
        count,
        ..
    } = lent;
    let state = State {
        rule,
        bytes,
        points: end.points,
        latest: end.latest.0,
        times,
        retained,
        owners,
        numbers,
        values,
        count,
    };
    Restored { read, state }
}

// How many entries a state keeps.
pub fn kept(s: State) -> u32
    ensures { result ≡ kept_stored (stored s) }
{
    s.count
}

// How many points a state has accepted that aren't settled, where it is well formed.
pub fn open_points(state: State) -> Option<u32>
    ensures { open_of result ≡ open_answer (stored state) }
{
    figures::open_points(
        &state.rule,
        state.bytes,
        end_of(state),
        &state.times,
        state.retained,
        &state.owners,
        &state.numbers,
        &state.values,
        state.count,
    )
}
