// The first checks of an event, its form, its rows, its time stamp and the room in the log; and of a notice, its time stamp alone.
#![tactic(auto)]

ghost use Rattle.std.specs.Prelude.{◌≡◌, List, ℕ, ◌<◌, drop, eqb, leb, ltb};
ghost use Rattle.meaning.specs.Lists.{range};
ghost use Rattle.std.specs.List.{list_all};
ghost use Rattle.meaning.specs.Outcome.{Outcome, most_points};
ghost use Rattle.meaning.specs.Event.{row_fits};
ghost use Rattle.meaning.specs.Keeper.{notice, admitted, admits};
ghost use Rattle.method.specs.Step.{words_of};
ghost use Rattle.events.specs.Answers.{RuleSizes, Rowed, form_of, rows_of, outcome_of, fed_of};

use limits::Refusal;
use meaning::{LogEnd, MOST_POINTS, MOST_ROWS, Stamp};

// What is handed in: an event's words, or a notice, of which the one word is its time.
#[derive(Clone, Copy)]
pub enum Handed<'a> {
    Event(&'a [u32]),
    Notice(&'a [u32; 1]),
}

impl<'a> Handed<'a> {
    // The words of either.
    pub fn words(self) -> &'a [u32]
        ensures { result.now ≡ words_of (fed_of self.entry) }
    {
        match self {
            Handed::Event(words) => words,
            Handed::Notice(words) => words,
        }
    }
}

// The row count of words that are an event, by their length and that count.
pub fn form_of(event: &[u32]) -> Option<u32>
    ensures { result ≡ form_of event.now }
{
    let n = event.len();
    if n < 2 {
        return None;
    }
    let m = event[1];
    if MOST_ROWS < m {
        return None;
    }
    if n != 2 + 5 * (m as usize) {
        return None;
    }
    Some(m)
}

// Whether each column from the arity on is 0.
fn unused_zero(columns: &[u32], arity: u8) -> bool
    ensures { result ≡ list_all (λ x. eqb x 0) (drop arity columns.now) }
{
    columns
        .iter()
        .skip(arity as usize)
        .all(|column| *column == 0)
}

// Whether row k names a relation of the rule and has 0 in its unused columns.
fn row_fits(rule: &[u8], event: &[u32], m: u32, k: u32) -> bool
    requires { RuleSizes rule.now × Rowed event.now m × (k < m) }
    ensures { result ≡ row_fits rule.now event.now k }
{
    let relation = event[2 + (k as usize)];
    if u32::from(rule[1]) <= relation {
        return false;
    }
    let at = 2 + (m as usize) + 4 * (k as usize);
    unused_zero(&event[at..at + 4], rule[4 + (relation as usize)])
}

// Whether the rows fit the rule, in their order, else the first that doesn't.
pub fn rows_of(rule: &[u8], event: &[u32], m: u32) -> Result<(), u32>
    requires { RuleSizes rule.now × Rowed event.now m }
    ensures { result ≡ rows_of rule.now event.now (range 0 m) }
{
    for k in 0..m {
        if !row_fits(rule, event, m, k) {
            return Err(k);
        }
    }
    Ok(())
}

// Whether a time stamp is no earlier than the latest known.
fn in_order(time: Stamp, last: Stamp) -> bool
    ensures { result ≡ leb last.0 time.0 }
{
    last.0 <= time.0
}

// Whether a log of so many points takes another.
fn has_room(points: u32) -> bool
    ensures { result ≡ ltb points most_points }
{
    points < MOST_POINTS
}

// An event's checks in the order of their refusals, by the latest known time stamp and the number of points. An answer is taken apart by `let .. else`, as 01 says.
fn admit(rule: &[u8], event: &[u32], last: Stamp, points: u32) -> Result<(), Refusal>
    requires { RuleSizes rule.now }
    ensures { (rest : Outcome ℕ) → admitted rule.now event.now last points rest ≡ outcome_of result rest }
{
    let Some(m) = form_of(event) else {
        return Err(Refusal::NotAnEvent);
    };
    let rows = rows_of(rule, event, m);
    let Ok(()) = rows else {
        return rows.map_err(Refusal::RowOut);
    };
    if !in_order(Stamp(event[0]), last) {
        return Err(Refusal::TimeFalls);
    }
    if !has_room(points) {
        return Err(Refusal::LogFull);
    }
    Ok(())
}

// A notice's one check.
fn admit_notice(time: Stamp, last: Stamp) -> Result<(), Refusal>
    ensures { (b : List ℕ) (points : ℕ) (rest : Outcome ℕ) → admits b (notice time.0) last points rest ≡ outcome_of result rest }
{
    if in_order(time, last) {
        return Ok(());
    }
    Err(Refusal::TimeFalls)
}

// The first checks of what is handed in, by where the log ends.
pub fn admit_handed(handed: Handed<'_>, rule: &[u8], log: LogEnd) -> Result<(), Refusal>
    requires { RuleSizes rule.now }
    ensures { (rest : Outcome ℕ) → admits rule.now (fed_of handed.entry) log.latest log.points rest ≡ outcome_of result rest }
{
    match handed {
        Handed::Event(words) => admit(rule, words, log.latest, log.points),
        Handed::Notice(words) => admit_notice(Stamp(words[0]), log.latest),
    }
}
