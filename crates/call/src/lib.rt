// A call in lent room: the walk over the tree, refusals 13 to 16, the report, and the entries that are then kept, stored.
#![tactic(auto)]

ghost use Rattle.std.specs.Prelude.{◌≡◌, ◌+◌, ◌-◌, ◌*◌, ◌≤◌, ◌<◌, length};
ghost use Rattle.meaning.specs.Lists.{range, gather};
ghost use Rattle.meaning.specs.Outcome.{most_kept};
ghost use Rattle.meaning.specs.RuleFile.{last_node};
ghost use Rattle.method.specs.Step.{points_added};
ghost use Rattle.method.specs.Room.{rows_needed, marks_needed};
ghost use Rattle.node_step.specs.Figures.{after_in};
ghost use Rattle.node_step.specs.Walks.{block_in};
ghost use Rattle.writer.specs.Words.{words};
ghost use Rattle.limits.specs.Weighs.{Weighs};
ghost use Rattle.call.specs.Stores.{EntriesStored, Storable};
ghost use Rattle.call.specs.Blocks.{EntriesPut, BlockStorable, last_points, LastReady};
ghost use Rattle.call.specs.Settles.{call_in, ReadyIn, RoomToKeep, Tried};

use limits::{Refusal, Written};
use meaning::{LogEnd, Point};
use node_step::{NO_NODE, NODE_WORDS, SET_WORDS};
use writer::Points;

// Stores node x's block behind k entries; the entry behind it.
fn store_block(
    out_numbers: &[u32],
    out_values: &[u32],
    blocks: &[u32],
    x: u8,
    owners: &mut [u32],
    numbers: &mut [u32],
    values: &mut [u32],
    k: usize,
) -> usize
    requires { BlockStorable out_numbers.now out_values.now blocks.now x owners.old numbers.old values.old k }
    ensures { EntriesPut owners.old numbers.old values.old owners.new numbers.new values.new k (block_in out_numbers.now out_values.now blocks.now x) result }
{
    let at = SET_WORDS + (x as usize) * 3;
    let from = blocks[at] as usize;
    let pairs = blocks[at + 1] as usize;
    let to = blocks[at + 2] as usize;
    if from == to {
        return k;
    }
    let owner = (x as u32) * 2;
    entries::fill(owner, pairs - from, owners, k);
    entries::fill(owner + 1, to - pairs, owners, k + (pairs - from));
    entries::copy_words(&out_numbers[from..to], to - from, numbers, k);
    entries::copy_words(
        &out_values[from * 4..to * 4],
        (to - from) * 4,
        values,
        k * 4,
    );
    k + (to - from)
}

// Stores the blocks of n nodes at the front of a state's words, in the order of the nodes.
fn store(
    out_numbers: &[u32],
    out_values: &[u32],
    blocks: &[u32],
    n: u8,
    owners: &mut [u32],
    numbers: &mut [u32],
    values: &mut [u32],
)
    requires { Storable out_numbers.now out_values.now blocks.now n owners.old numbers.old values.old }
    ensures { EntriesStored owners.old numbers.old values.old owners.new numbers.new values.new (gather (block_in out_numbers.now out_values.now blocks.now) (range 0 n)) }
{
    let mut k = 0;
    let mut x = 0u8;
    while x < n {
        k = store_block(
            out_numbers,
            out_values,
            blocks,
            x,
            owners,
            numbers,
            values,
            k,
        );
        x += 1;
    }
}

// Refusals 14 to 16, and the report where none applies, once the last node's sets stand from set 0 on.
fn weigh_last(
    rule: &[u8],
    figures: &[u32],
    stamps: &[u32],
    points: u32,
    event: &[u32],
    rows: &[u32],
    at: &[u32],
    kept: usize,
    report: &mut [u32],
) -> Result<Written, Refusal>
    requires { LastReady rule.now figures.now points event.now stamps.now rows.now at.now }
    ensures { Weighs (points + points_added event.now - after_in figures.now (last_node rule.now)) kept (words rows.now at.now stamps.now (last_points rule.now figures.now points stamps.now)) report.old report.new result }
{
    let x = ((rule[2] - 1) as usize) * NODE_WORDS;
    let before = figures[x + 2];
    let after = figures[x + 3];
    let p = Points {
        from: Point(before),
        count: after - before,
        first: 0,
        low: Point(figures[x + 1]),
        base: Point(points + 1 - stamps.len() as u32),
        mask: figures[x] as u8,
    };
    let unsettled = points + progress::points_added(event) - after;
    limits::weigh(report, rows, at, stamps, p, unsettled, kept)
}

// A call in lent room: all nodes, refusals 13 to 16, and where none applies the report and the entries that are then kept. None where more entries would be kept than there is room for, which may be fewer than a state has.
pub fn settle(
    rule: &[u8],
    figures: &[u32],
    stamps: &[u32],
    log: LogEnd,
    event: &[u32],
    owners: &mut [u32],
    numbers: &mut [u32],
    values: &mut [u32],
    count: usize,
    report: &mut [u32],
    rows: &mut [u32],
    at: &mut [u32],
    out_numbers: &mut [u32],
    out_values: &mut [u32],
    blocks: &mut [u32],
) -> Option<Result<Written, Refusal>>
    requires ready_in { ReadyIn rule.now log stamps.now owners.old numbers.old values.old count event.now figures.now }
    requires event_in_bounds { (rows_needed (call_in rule.now log stamps.now owners.old numbers.old values.old count) event.now * 4 ≤ length rows.old) × (marks_needed (call_in rule.now log stamps.now owners.old numbers.old values.old count) event.now < length at.old) }
    requires room_to_keep { RoomToKeep rule.now out_numbers.old out_values.old blocks.old }
    ensures tried { Tried (call_in rule.now log stamps.now owners.old numbers.old values.old count) event.now report.old report.new owners.old numbers.old values.old owners.new numbers.new values.new result }
    ensures full { result ≡ None → length out_numbers.old < most_kept }
{
    let place = tree_walk::walk(
        rule,
        figures,
        &owners[0..count],
        &numbers[0..count],
        &values[0..count * 4],
        stamps,
        log,
        event,
        rows,
        at,
        out_numbers,
        out_values,
        blocks,
    );
    let low = place.low;
    if low < NO_NODE {
        return Some(Err(Refusal::Crowded(low)));
    }
    let kept = place.kept;
    let room = out_numbers.len();
    if room < kept {
        if room < meaning::MOST_KEPT {
            return None;
        }
    }
    let weighed = weigh_last(
        rule, figures, stamps, log.points, event, rows, at, kept, report,
    );
    match weighed {
        Err(refusal) => Some(Err(refusal)),
        Ok(written) => {
            store(
                out_numbers,
                out_values,
                blocks,
                rule[2],
                owners,
                numbers,
                values,
            );
            Some(Ok(written))
        }
    }
}
