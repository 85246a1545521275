// The room of a call, chosen by how many rows and marks it needs and how many entries it may keep, and the call settled in it.
#![tactic(auto)]

ghost use Rattle.std.specs.Prelude.{◌≡◌, true, ◌≤◌, ◌<◌};
ghost use Rattle.meaning.specs.Outcome.{most_points, most_kept};
ghost use Rattle.method.specs.Room.{rows_needed};
ghost use Rattle.call.specs.Settles.{call_in, ReadyIn, SettledCall, Tried};
ghost use Rattle.workspace.specs.Rooms.{CallFits, NeedsAre, IsRoom};

use limits::{Refusal, Written};
use meaning::{LogEnd, MOST_KEPT, MOST_NODES};
use node_step::SET_WORDS;

// How many rows the rooms have. The most are enough for every well-formed state: all kept rows, and 250 new sets of 32 rows each.
const SMALL_ROWS: usize = 104;

const DOUBLE_ROWS: usize = 176;

const MEDIUM_ROWS: usize = 224;

const USUAL_ROWS: usize = 704;

const LARGE_ROWS: usize = 2688;

const LARGEST_ROWS: usize = 8512;

// The words of their rows.
const SMALL_WORDS: usize = SMALL_ROWS * 4;

const DOUBLE_WORDS: usize = DOUBLE_ROWS * 4;

const MEDIUM_WORDS: usize = MEDIUM_ROWS * 4;

const USUAL_WORDS: usize = USUAL_ROWS * 4;

const LARGE_WORDS: usize = LARGE_ROWS * 4;

const LARGEST_WORDS: usize = LARGEST_ROWS * 4;

// For how many entries that are kept there is room, and the words of their values.
const FEW_KEPT: usize = 32;

const SOME_KEPT: usize = 128;

const MANY_KEPT: usize = 384;

const ALL_KEPT: usize = MOST_KEPT;

const FEW_VALUES: usize = FEW_KEPT * 4;

const SOME_VALUES: usize = SOME_KEPT * 4;

const MANY_VALUES: usize = MANY_KEPT * 4;

const ALL_VALUES: usize = ALL_KEPT * 4;

// The marks beside the rows: more than the sets that stand at once, of which there are at most six for each time that is retained and the new one. The last are enough for 65 times, which no call has more of.
const MARKS_TO_TIME: usize = 6;

const FEW_MARKS: usize = 64;

const SOME_MARKS: usize = 200;

const MARKS: usize = 391;

// The words of the table of blocks, three to a node behind those of the set that is being made.
const TABLE: usize = SET_WORDS + MOST_NODES * 3;

// What a call needs at most: rows, marks, and entries where each row of the event adds one.
#[derive(Clone, Copy)]
struct Needs {
    rows: usize,
    marks: usize,
    entries: usize,
}

// How often a room's function calls itself: never, which the compiler can't tell. It merges a function that is called in one place into its caller, and then every event would take the frame of the largest room; one that calls itself stays apart. A log has at most 10,000,000 points.
fn never(points: u32) -> u32
    requires { points ≤ most_points }
    ensures { result ≡ 0 }
{
    points / 4_000_000_000
}

// A call tried in a room of so many rows and marks, where so many entries may be kept. It calls itself `again` times first, which is never (see `never`).
fn settle_in<
    const ROWS: usize,
    const MARKS: usize,
    const KEPT: usize,
    const ROW_WORDS: usize,
    const VALUES: usize,
>(
    again: u32,
    rule: &[u8],
    figures: &[u32],
    stamps: &[u32],
    log: LogEnd,
    event: &[u32],
    owners: &mut [u32],
    numbers: &mut [u32],
    values: &mut [u32],
    count: usize,
    report: &mut [u32],
) -> Option<Result<Written, Refusal>>
    requires again_value { again ≡ 0 }
    requires room { IsRoom ROWS MARKS KEPT ROW_WORDS VALUES }
    requires ready_in { ReadyIn rule.now log stamps.now owners.old numbers.old values.old count event.now figures.now }
    requires call_fits { CallFits (call_in rule.now log stamps.now owners.old numbers.old values.old count) event.now ROWS MARKS }
    ensures tried { Tried (call_in rule.now log stamps.now owners.old numbers.old values.old count) event.now report.old report.new owners.old numbers.old values.old owners.new numbers.new values.new result }
    ensures full { result ≡ None → KEPT < most_kept }
{
    if 0 < again {
        return settle_in::<ROWS, MARKS, KEPT, ROW_WORDS, VALUES>(
            again - 1,
            rule,
            figures,
            stamps,
            log,
            event,
            owners,
            numbers,
            values,
            count,
            report,
        );
    }
    let mut rows = [0u32; ROW_WORDS];
    let mut at = [0u32; MARKS];
    let mut out_numbers = [0u32; KEPT];
    let mut out_values = [0u32; VALUES];
    let mut blocks = [0u32; TABLE];
    call::settle(
        rule,
        figures,
        stamps,
        log,
        event,
        owners,
        numbers,
        values,
        count,
        report,
        &mut rows,
        &mut at,
        &mut out_numbers,
        &mut out_values,
        &mut blocks,
    )
}

// Whether a room of so many rows, marks and entries has what a call needs: there is a mark more than sets.
fn has_room(needs: Needs, rows: usize, marks: usize, entries: usize) -> bool
    ensures passes { result ≡ true → (needs.rows ≤ rows) × (needs.marks < marks) × (needs.entries ≤ entries) }
    ensures fits { needs.rows ≤ rows → needs.marks < marks → needs.entries ≤ entries → result ≡ true }
{
    needs.rows <= rows && needs.marks < marks && needs.entries <= entries
}

// A call tried in the first room that has what it needs, and full where only room for all entries has.
fn settle_smaller(
    again: u32,
    rule: &[u8],
    figures: &[u32],
    stamps: &[u32],
    log: LogEnd,
    event: &[u32],
    owners: &mut [u32],
    numbers: &mut [u32],
    values: &mut [u32],
    count: usize,
    report: &mut [u32],
    needs: Needs,
) -> Option<Result<Written, Refusal>>
    requires again_value { again ≡ 0 }
    requires ready_in { ReadyIn rule.now log stamps.now owners.old numbers.old values.old count event.now figures.now }
    requires needs_are { NeedsAre (call_in rule.now log stamps.now owners.old numbers.old values.old count) event.now needs }
    ensures { Tried (call_in rule.now log stamps.now owners.old numbers.old values.old count) event.now report.old report.new owners.old numbers.old values.old owners.new numbers.new values.new result }
{
    if has_room(needs, SMALL_ROWS, FEW_MARKS, FEW_KEPT) {
        return settle_in::<SMALL_ROWS, FEW_MARKS, FEW_KEPT, SMALL_WORDS, FEW_VALUES>(
            again, rule, figures, stamps, log, event, owners, numbers, values, count, report,
        );
    }
    if has_room(needs, DOUBLE_ROWS, FEW_MARKS, FEW_KEPT) {
        return settle_in::<DOUBLE_ROWS, FEW_MARKS, FEW_KEPT, DOUBLE_WORDS, FEW_VALUES>(
            again, rule, figures, stamps, log, event, owners, numbers, values, count, report,
        );
    }
    if has_room(needs, SMALL_ROWS, FEW_MARKS, SOME_KEPT) {
        return settle_in::<SMALL_ROWS, FEW_MARKS, SOME_KEPT, SMALL_WORDS, SOME_VALUES>(
            again, rule, figures, stamps, log, event, owners, numbers, values, count, report,
        );
    }
    if has_room(needs, MEDIUM_ROWS, SOME_MARKS, SOME_KEPT) {
        return settle_in::<MEDIUM_ROWS, SOME_MARKS, SOME_KEPT, MEDIUM_WORDS, SOME_VALUES>(
            again, rule, figures, stamps, log, event, owners, numbers, values, count, report,
        );
    }
    if has_room(needs, MEDIUM_ROWS, MARKS, MANY_KEPT) {
        return settle_in::<MEDIUM_ROWS, MARKS, MANY_KEPT, MEDIUM_WORDS, MANY_VALUES>(
            again, rule, figures, stamps, log, event, owners, numbers, values, count, report,
        );
    }
    if has_room(needs, USUAL_ROWS, MARKS, MANY_KEPT) {
        return settle_in::<USUAL_ROWS, MARKS, MANY_KEPT, USUAL_WORDS, MANY_VALUES>(
            again, rule, figures, stamps, log, event, owners, numbers, values, count, report,
        );
    }
    None
}

// A call with room for all entries that may be kept: the largest room is always enough.
fn settle_all(
    again: u32,
    rule: &[u8],
    figures: &[u32],
    stamps: &[u32],
    log: LogEnd,
    event: &[u32],
    owners: &mut [u32],
    numbers: &mut [u32],
    values: &mut [u32],
    count: usize,
    report: &mut [u32],
    needs: Needs,
) -> Result<Written, Refusal>
    requires again_value { again ≡ 0 }
    requires ready_in { ReadyIn rule.now log stamps.now owners.old numbers.old values.old count event.now figures.now }
    requires needs_are { NeedsAre (call_in rule.now log stamps.now owners.old numbers.old values.old count) event.now needs }
    ensures { SettledCall (call_in rule.now log stamps.now owners.old numbers.old values.old count) event.now report.old report.new owners.old numbers.old values.old owners.new numbers.new values.new result }
{
    if needs.rows <= LARGE_ROWS {
        return settle_in::<LARGE_ROWS, MARKS, ALL_KEPT, LARGE_WORDS, ALL_VALUES>(
            again, rule, figures, stamps, log, event, owners, numbers, values, count, report,
        )
        .unwrap_or(Err(Refusal::KeptOver));
    }
    settle_in::<LARGEST_ROWS, MARKS, ALL_KEPT, LARGEST_WORDS, ALL_VALUES>(
        again, rule, figures, stamps, log, event, owners, numbers, values, count, report,
    )
    .unwrap_or(Err(Refusal::KeptOver))
}

// A call in the room that it needs: so many rows.
pub fn settle_in_room(
    rule: &[u8],
    figures: &[u32],
    stamps: &[u32],
    log: LogEnd,
    event: &[u32],
    owners: &mut [u32],
    numbers: &mut [u32],
    values: &mut [u32],
    count: usize,
    report: &mut [u32],
    needed: u32,
) -> Result<Written, Refusal>
    requires ready_in { ReadyIn rule.now log stamps.now owners.old numbers.old values.old count event.now figures.now }
    requires event_bound { rows_needed (call_in rule.now log stamps.now owners.old numbers.old values.old count) event.now ≤ needed }
    ensures { SettledCall (call_in rule.now log stamps.now owners.old numbers.old values.old count) event.now report.old report.new owners.old numbers.old values.old owners.new numbers.new values.new result }
{
    // `never` keeps each room's function apart from this one, so that a call has the frame of its own room alone.
    let again = never(log.points);
    let needs = Needs {
        rows: needed as usize,
        marks: MARKS_TO_TIME * stamps.len(),
        entries: count + kinds::row_total(event),
    };
    let tried = settle_smaller(
        again, rule, figures, stamps, log, event, owners, numbers, values, count, report, needs,
    );
    match tried {
        Some(weighed) => weighed,
        None => settle_all(
            again, rule, figures, stamps, log, event, owners, numbers, values, count, report, needs,
        ),
    }
}
