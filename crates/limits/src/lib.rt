// Refusals 14 to 16, and the report where none applies: what a call leaves weighed, and the report written.
#![tactic(auto)]

ghost use Rattle.std.specs.Prelude.{◌<◌, ◌^◌, length};
ghost use Rattle.writer.specs.Words.{words, Reportable};
ghost use Rattle.limits.specs.Weighs.{Weighs};

use meaning::{MOST_KEPT, MOST_OPEN};
use writer::Points;

// A refusal of a taking, with its place where it has one.
#[derive(Clone, Copy, Debug, PartialEq, Eq)]
pub enum Refusal {
    NotWellFormed,
    NotAnEvent,
    RowOut(u32),
    TimeFalls,
    LogFull,
    Crowded(u8),
    Backlog,
    KeptOver,
    BufferShort(u32),
}

// What a taking leaves that isn't refused: the words of its report, and how many entries are kept.
#[derive(Clone, Copy, Debug, PartialEq, Eq)]
pub struct Written {
    pub words: u32,
    pub kept: u32,
}

// Refusals 14 to 16, and the report where none applies: on points that the last node has newly settled. `unsettled` points are left for it, and `kept` entries would be kept.
pub fn weigh(
    report: &mut [u32],
    rows: &[u32],
    marks: &[u32],
    times: &[u32],
    p: Points,
    unsettled: u32,
    kept: usize,
) -> Result<Written, Refusal>
    requires reportable { Reportable rows.now marks.now p }
    requires p_len_bound { length (words rows.now marks.now times.now p) < 2 ^ 32 }
    ensures { Weighs unsettled kept (words rows.now marks.now times.now p) report.old report.new result }
{
    if MOST_OPEN < unsettled {
        return Err(Refusal::Backlog);
    }
    if MOST_KEPT < kept {
        return Err(Refusal::KeptOver);
    }
    match writer::write(report, rows, marks, times, p) {
        Ok(words) => Ok(Written {
            words: words as u32,
            kept: kept as u32,
        }),
        Err(short) => Err(Refusal::BufferShort(short.needed as u32)),
    }
}
