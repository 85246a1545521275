// The operations for programs in other languages. A slice is passed as its address and then its length.
#![tactic(auto)]

ghost use Rattle.std.specs.Prelude.{◌≡◌, length};
ghost use Rattle.meaning.specs.RuleFile.{checking};
ghost use Rattle.meaning.specs.Readings.{word_of, reading_of};
ghost use Rattle.meaning.specs.Keeper.{event as event_of, notice};
ghost use Rattle.rulefile.specs.Checked.{answer_of};
ghost use Rattle.yokemango.specs.Parts.{parts_of};
ghost use Rattle.meaning.specs.Report.{in_form, read_count, read_rows};
ghost use Rattle.report.specs.Answer.{part_of};
ghost use Rattle.limits.specs.Weighs.{refusal_of};
ghost use Rattle.figures.specs.Fronts.{open_of};
ghost use Rattle.lent_state.specs.Lent.{lent, answer_of as answered};
ghost use Rattle.image_words.specs.Promises.{saved_of, read_of};
ghost use Rattle.monitor.specs.State.{end_at};
ghost use Rattle.yokemango.specs.Exported.{form_number, count_or_none, word_or_none};
ghost use Rattle.yokemango.specs.Numbers.{start_parts, told_of, figures_with, figures_of, TakesAs, SavesAs, RestoresAs};

use figures::open_points;
use image_words::{NotAnImage, Unsaved};
use lent_state::{Loan, lengths_fit};
use limits::Refusal;
use meaning::{LogEnd, Stamp};
use monitor::State;
use refusals::{of_event, of_rule};
use report::RowCount;
use rulefile::{AcceptedRule, RuleRefusal, check};

// The answer of checking: 0, or the refusal's number and place; the reach, and the free variables, bit k for variable k.
#[repr(C)]
#[derive(Clone, Copy)]
pub struct Parts {
    pub number: u32,
    pub place: u32,
    pub reach: u32,
    pub free: u32,
}

fn parts_of(c: Result<AcceptedRule, RuleRefusal>) -> Parts
    ensures { result ≡ parts_of (answer_of c) }
{
    match c {
        Ok(rule) => Parts {
            number: 0,
            place: 0,
            reach: rule.reach,
            free: rule.mask as u32,
        },
        Err(_) => {
            let told = of_rule(c);
            Parts {
                number: told.0,
                place: told.1,
                reach: 0,
                free: 0,
            }
        }
    }
}

// Checks a rule: any bytes.
#[unsafe(no_mangle)]
pub extern "C" fn yokemango_check(rule: &[u8]) -> Parts
    ensures { result ≡ parts_of (checking rule.now) }
{
    parts_of(check(rule))
}

// 0 where the words are a report, else 17.
#[unsafe(no_mangle)]
pub extern "C" fn yokemango_check_report(report: &[u32]) -> u32
    ensures { result ≡ form_number (in_form report.now) }
{
    if report::in_form(report) { 0 } else { 17 }
}

// The row count of entry `k`, or 4,294,967,296 for refusal 17.
#[unsafe(no_mangle)]
pub extern "C" fn yokemango_row_count(report: &[u32], k: usize) -> u64
    ensures { result ≡ count_or_none (read_count report.now k) }
{
    match report::row_count(report, k) {
        RowCount::Rows(n) => n as u64,
        RowCount::Refused => 4294967296,
    }
}

// Where in the report the rows of entry `k` begin; 0 for refusal 17.
#[unsafe(no_mangle)]
pub extern "C" fn yokemango_rows_start(report: &[u32], k: usize) -> usize
    ensures { result ≡ (part_of report.now k).start }
{
    let part = report::part_of(report, k);
    part.start
}

// How many words the rows of entry `k` are; 0 for refusal 17.
#[unsafe(no_mangle)]
pub extern "C" fn yokemango_rows_len(report: &[u32], k: usize) -> usize
    ensures { result ≡ length (read_rows report.now k) }
{
    let rows = report::rows(report, k);
    rows.len()
}

// Word `i` of the rows that are handed back for entry `k`, or 4,294,967,296 past their end.
#[unsafe(no_mangle)]
pub extern "C" fn yokemango_rows_word(report: &[u32], k: usize, i: usize) -> u64
    ensures { result ≡ word_or_none (read_rows report.now k) i }
{
    let rows = report::rows(report, k);
    if i < rows.len() {
        rows[i] as u64
    } else {
        4294967296
    }
}

// What starting gives: 0, or the refusal's number and place; the reach and free variables; and the state, zeros where the rule is refused.
#[repr(C)]
#[derive(Clone, Copy)]
pub struct StartParts {
    pub number: u32,
    pub place: u32,
    pub reach: u32,
    pub free: u32,
    pub state: State,
}

// 0 and the points that are open, or 8; and the kept entries.
#[repr(C)]
#[derive(Clone, Copy)]
pub struct Figures {
    pub number: u32,
    pub open_points: u32,
    pub kept: u32,
}

// The answer of a taking in numbers: 0 and the words written, or the refusal's number and place.
#[repr(C)]
#[derive(Clone, Copy)]
pub struct Told {
    pub number: u32,
    pub place: u32,
    pub words: u32,
}

fn told_words(words: u32) -> Told
    ensures { result ≡ record { number = 0; place = 0; words = words } }
{
    Told {
        number: 0,
        place: 0,
        words,
    }
}

fn told_refusal(r: Refusal) -> Told
    ensures { result ≡ told_of (refusal_of r) }
{
    let told = of_event(r);
    Told {
        number: told.0,
        place: told.1,
        words: 0,
    }
}

fn told_answer(a: Result<u32, Refusal>) -> Told
    ensures { result ≡ told_of (answered a) }
{
    match a {
        Ok(words) => told_words(words),
        Err(r) => told_refusal(r),
    }
}

// Starts a state: any bytes.
#[unsafe(no_mangle)]
pub extern "C" fn yokemango_start(rule: &[u8]) -> StartParts
    ensures { result ≡ start_parts rule.now }
{
    let started = monitor::start(rule);
    let checked = started.checked;
    let state = started.state;
    let parts = parts_of(checked);
    StartParts {
        number: parts.number,
        place: parts.place,
        reach: parts.reach,
        free: parts.free,
        state,
    }
}

// Takes an event, in place: the parts of any state, any event words, any report buffer. Where a length isn't a state's the answer is 8.
#[unsafe(no_mangle)]
pub extern "C" fn yokemango_take(
    rule: &[u8],
    bytes: u32,
    points: &mut u32,
    latest: &mut u32,
    times: &mut [u32],
    retained: &mut u32,
    owners: &mut [u32],
    numbers: &mut [u32],
    values: &mut [u32],
    count: &mut u32,
    event: &[u32],
    report: &mut [u32],
) -> Told
    ensures { TakesAs (lent rule.now bytes (end_at points.old latest.old) times.old retained.old owners.old numbers.old values.old count.old) (event_of event.now) report.old result (lent rule.now bytes (end_at points.new latest.new) times.new retained.new owners.new numbers.new values.new count.new) report.new }
{
    let mut lent = Loan {
        rule,
        bytes,
        log: LogEnd {
            points: *points,
            latest: Stamp(*latest),
        },
        times,
        retained: *retained,
        owners,
        numbers,
        values,
        count: *count,
    };
    let taken = lent_state::take(&mut lent, event, report);
    *points = lent.log.points;
    *latest = lent.log.latest.0;
    *retained = lent.retained;
    *count = lent.count;
    told_answer(taken)
}

// Takes a clock notice, in place: the parts of any state, any time, any report buffer. Where a length isn't a state's the answer is 8.
#[unsafe(no_mangle)]
pub extern "C" fn yokemango_notice(
    rule: &[u8],
    bytes: u32,
    points: &mut u32,
    latest: &mut u32,
    times: &mut [u32],
    retained: &mut u32,
    owners: &mut [u32],
    numbers: &mut [u32],
    values: &mut [u32],
    count: &mut u32,
    time: u32,
    report: &mut [u32],
) -> Told
    ensures { TakesAs (lent rule.now bytes (end_at points.old latest.old) times.old retained.old owners.old numbers.old values.old count.old) (notice time) report.old result (lent rule.now bytes (end_at points.new latest.new) times.new retained.new owners.new numbers.new values.new count.new) report.new }
{
    let mut held = Loan {
        rule,
        bytes,
        log: LogEnd {
            points: *points,
            latest: Stamp(*latest),
        },
        times,
        retained: *retained,
        owners,
        numbers,
        values,
        count: *count,
    };
    let noted = lent_state::notice(&mut held, time, report);
    *points = held.log.points;
    *latest = held.log.latest.0;
    *retained = held.retained;
    *count = held.count;
    told_answer(noted)
}

fn figures_of(found: Option<u32>, kept: u32) -> Figures
    ensures { result ≡ figures_with (open_of found) kept }
{
    match found {
        Some(n) => Figures {
            number: 0,
            open_points: n,
            kept,
        },
        None => Figures {
            number: 8,
            open_points: 0,
            kept,
        },
    }
}

// The figures `open` and `kept` of a state that is lent: the parts of any state. Where a length isn't a state's the answer is 8.
#[unsafe(no_mangle)]
pub extern "C" fn yokemango_figures<'a>(
    rule: &'a [u8],
    bytes: u32,
    points: u32,
    latest: u32,
    times: &'a [u32],
    retained: u32,
    owners: &'a [u32],
    numbers: &'a [u32],
    values: &'a [u32],
    count: u32,
) -> Figures
    ensures { result ≡ figures_of (lent rule.now bytes (end_at points latest) times.now retained owners.now numbers.now values.now count) }
{
    if !lengths_fit(
        rule.len(),
        times.len(),
        owners.len(),
        numbers.len(),
        values.len(),
    ) {
        return figures_of(None, count);
    }
    let found = open_points(
        rule,
        bytes,
        LogEnd {
            points,
            latest: Stamp(latest),
        },
        times,
        retained,
        owners,
        numbers,
        values,
        count,
    );
    figures_of(found, count)
}

fn told_saved(s: Result<u32, Unsaved>) -> Told
    ensures { result ≡ told_of (saved_of s) }
{
    match s {
        Ok(words) => told_words(words),
        Err(Unsaved::NotWellFormed) => told_refusal(Refusal::NotWellFormed),
        Err(Unsaved::Short(needed)) => Told {
            number: 19,
            place: needed,
            words: 0,
        },
    }
}

fn told_read(r: Result<u32, NotAnImage>) -> Told
    ensures { result ≡ told_of (read_of r) }
{
    match r {
        Ok(words) => told_words(words),
        Err(NotAnImage) => Told {
            number: 18,
            place: 0,
            words: 0,
        },
    }
}

// Saves a state as an image: the parts of any state, any buffer. Where a length isn't a state's the answer is 8.
#[unsafe(no_mangle)]
pub extern "C" fn yokemango_save<'a>(
    rule: &'a [u8],
    bytes: u32,
    points: u32,
    latest: u32,
    times: &'a [u32],
    retained: u32,
    owners: &'a [u32],
    numbers: &'a [u32],
    values: &'a [u32],
    count: u32,
    image: &mut [u32],
) -> Told
    ensures { SavesAs (lent rule.now bytes (end_at points latest) times.now retained owners.now numbers.now values.now count) image.old result image.new }
{
    let lent = Loan {
        rule,
        bytes,
        log: LogEnd {
            points,
            latest: Stamp(latest),
        },
        times,
        retained,
        owners,
        numbers,
        values,
        count,
    };
    told_saved(image_words::save(lent, image))
}

// Reads an image in, in place: any words, the parts of any state. Where a length isn't a state's the answer is 18.
#[unsafe(no_mangle)]
pub extern "C" fn yokemango_restore(
    image: &[u32],
    rule: &mut [u8],
    bytes: &mut u32,
    points: &mut u32,
    latest: &mut u32,
    times: &mut [u32],
    retained: &mut u32,
    owners: &mut [u32],
    numbers: &mut [u32],
    values: &mut [u32],
    count: &mut u32,
) -> Told
    ensures { RestoresAs (lent rule.old bytes.old (end_at points.old latest.old) times.old retained.old owners.old numbers.old values.old count.old) image.now result (lent rule.new bytes.new (end_at points.new latest.new) times.new retained.new owners.new numbers.new values.new count.new) }
{
    let mut room = Loan {
        rule,
        bytes: *bytes,
        log: LogEnd {
            points: *points,
            latest: Stamp(*latest),
        },
        times,
        retained: *retained,
        owners,
        numbers,
        values,
        count: *count,
    };
    let read = image_words::restore(image, &mut room);
    *bytes = room.bytes;
    *points = room.log.points;
    *latest = room.log.latest.0;
    *retained = room.retained;
    *count = room.count;
    told_read(read)
}

// The reading that a word stores, in signed hundredths.
#[unsafe(no_mangle)]
pub extern "C" fn yokemango_reading_of(word: u32) -> i32
    ensures { result ≡ reading_of word }
{
    readings::reading_of(word)
}

// The word that stores a reading.
#[unsafe(no_mangle)]
pub extern "C" fn yokemango_word_of(hundredths: i32) -> u32
    ensures { result ≡ word_of hundredths }
{
    readings::word_of(hundredths)
}
