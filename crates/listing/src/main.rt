// The listing program: a rule and its events on standard input, the monitor's answers on standard output.
#![tactic(auto)]

mod event;
mod input;
mod text;

ghost use Rattle.std.specs.Prelude.{◌+◌, ◌≤◌, length};

use event::take_event;
use input::{is_short, read_more, read_rule};
use lent_state::{Loan, Taking};
use lines::{Next, next_event, put_checked, rule_in};
use meaning::{LogEnd, MOST_ROWS, RULE_BYTES, Stamp};
use monitor::State;
use std::io::{Print, Read};
use text::put_end;

// Rows at most that an event has.
const ROWS: usize = MOST_ROWS as usize;

// Bytes at most that an answer's text has.
const LARGEST: usize = 53504;

// Writes the bytes; where that fails, the rest of them is not written.
fn write<W: Print>(output: &W, bytes: &[u8]) {
    let _ = output.write_all(bytes);
}

// Writes the text up to `at` where the largest answer has no room behind it, and answers where the next one goes.
fn make_room<W: Print>(output: &W, text: &[u8], at: usize) -> usize
    requires { (at ≤ length text.now) × (53504 ≤ length text.now) }
    ensures { result + 53504 ≤ length text.now }
{
    if text.len() - at >= LARGEST {
        return at;
    }
    write(output, &text[0..at]);
    0
}

// Takes the events on standard input and prints the answers, then the last line. Each turn takes an event, or reads where none is whole, once the text so far is written; the count of turns only bounds the loop. The state is changed where it stands.
fn take_all<R: Read, W: Print>(input: &mut R, output: &W, first: State) {
    let mut bytes = [0u8; 65536];
    let mut event = [0u32; 2 + 5 * ROWS];
    let mut report = [0u32; 4326];
    let mut text = [0u8; 65536];
    let rule = first.rule;
    let mut times = first.times;
    let mut owners = first.owners;
    let mut numbers = first.numbers;
    let mut values = first.values;
    let mut lent: Taking<'_> = Loan {
        rule: &rule,
        bytes: first.bytes,
        log: LogEnd {
            points: first.points,
            latest: Stamp(first.latest),
        },
        times: &mut times,
        retained: first.retained,
        owners: &mut owners,
        numbers: &mut numbers,
        values: &mut values,
        count: first.count,
    };
    let mut ended = false;
    let mut from = 0;
    let mut to = 0;
    let mut at = 0;
    for _ in 0..u64::MAX {
        if is_short(&bytes[from..to], ended) {
            write(output, &text[..at]);
            let n = read_more(input, &mut bytes, from, to);
            ended = n == to - from;
            from = 0;
            to = n;
            at = 0;
            continue;
        }
        let next = next_event(&bytes[from..to], &mut event);
        let Next::Event(n) = next else {
            let log = lent.log;
            let retained = lent.retained;
            let count = lent.count;
            let state = State {
                points: log.points,
                latest: log.latest.0,
                times,
                retained,
                owners,
                numbers,
                values,
                count,
                ..first
            };
            let end = put_end(&mut text, at, next, state);
            write(output, &text[..end]);
            return;
        };
        let end = take_event(&mut lent, &event[..n], &mut report, &mut text, at);
        at = make_room(output, &text, end);
        from += 4 * n;
    }
}

fn main(rt: HostRuntime) {
    let mut input = rt.stdin();
    let output = rt.stdout();
    let mut bytes = [0u8; 4 + RULE_BYTES];
    let n = read_rule(&mut input, &mut bytes);
    let started = monitor::start(rule_in(&bytes[0..n]));
    let checked = started.checked;
    let state = started.state;
    let mut line = [0u8; 64];
    let end = put_checked(&mut line, checked);
    write(&output, &line[0..end]);
    if checked.is_err() {
        return;
    }
    take_all(&mut input, &output, state);
}
