// Taking an event or a notice in memory that the caller lends: the checks in the order of their refusals, the figures of the call, and the call settled; what is stored is changed in place, and a refusal changes nothing.
#![tactic(auto)]

ghost use Rattle.std.specs.Prelude.{◌≡◌, ◌+◌, ◌≤◌, ◌<◌, length, take};
ghost use Rattle.meaning.specs.Outcome.{most_nodes, most_points};
ghost use Rattle.method.specs.WellFormed.{Formed};
ghost use Rattle.kinds.specs.Kinds.{EventThere};
ghost use Rattle.formed.specs.StateFigures.{stored_in, StateFigures, EntryPlaces};
ghost use Rattle.meaning.specs.Keeper.{event as event_of, notice};
ghost use Rattle.method.specs.Step.{words_of, points_added};
ghost use Rattle.events.specs.Answers.{fed_of};
ghost use Rattle.call.specs.Settles.{weighed_now};
ghost use Rattle.lent_state.specs.Answers.{take_answer, Finishes, TakesIn};
ghost use Rattle.lent_state.specs.Lent.{lent_in, lengths_are, SizedWords, SameWords, TakesLent};

use events::Handed;
use limits::{Refusal, Written};
use meaning::{LogEnd, MOST_KEPT, MOST_NODES, RULE_BYTES, Stamp, TIME_WORDS};
use node_step::NODE_WORDS;

// The words for the values of the entries.
const VALUES: usize = MOST_KEPT * 4;

// A state's parts in memory that the caller lends: the rule, the times and the entries at the front of their slices, as many as `bytes`, `retained` and `count` say, and where the log ends. The slices are of bytes (R) and of words (W): for a taking the words are lent to be written, for reading an image in the bytes too, for saving neither.
#[derive(Drop)]
pub struct Loan<R, W> {
    pub rule: R,
    pub bytes: u32,
    pub log: LogEnd,
    pub times: W,
    pub retained: u32,
    pub owners: W,
    pub numbers: W,
    pub values: W,
    pub count: u32,
}

// What is lent for a taking.
pub type Taking<'a> = Loan<&'a [u8], &'a mut [u32]>;

// What a step of a taking leaves that isn't refused: what was written and kept, and how many times are retained.
#[derive(Clone, Copy)]
struct Taken {
    written: Written,
    retained: u32,
}

// What follows once 13 to 16 are weighed: where nothing is refused, the times that are retained are stored.
fn finish(
    weighed: Result<Written, Refusal>,
    after: &[u32],
    points: u32,
    stamps: &[u32],
    times: &mut [u32],
) -> Result<Taken, Refusal>
    requires { (length stamps.now ≤ points) × (length stamps.now ≤ length times.old) × (length stamps.now < 4294967296) }
    ensures { Finishes points after.now stamps.now times.old times.new weighed result }
{
    let written = weighed?;
    let retained = figures::retain(after, points, stamps, times);
    Ok(Taken { written, retained })
}

// The words of what passes the first checks, an event's or a notice's one, taken in a state that is well formed. For each node of the rule there are the mask of its free variables, how many points it has settled, from which point on its rows are kept, and where its entries and its pairs begin.
fn take_admitted(
    rule: &[u8],
    log: LogEnd,
    times: &mut [u32],
    retained: usize,
    owners: &mut [u32],
    numbers: &mut [u32],
    values: &mut [u32],
    count: usize,
    words: &[u32],
    report: &mut [u32],
    masks: &[u8],
    counts: &[u32],
    lows: &[u32],
    begins: &[u32],
    pairs: &[u32],
) -> Result<Taken, Refusal>
    requires sized_words { SizedWords times.old owners.old numbers.old values.old retained count }
    requires formed { Formed (stored_in rule.now log (take retained times.old) owners.old numbers.old values.old count) }
    requires state_figures { StateFigures (stored_in rule.now log (take retained times.old) owners.old numbers.old values.old count) masks.now counts.now lows.now × EntryPlaces (stored_in rule.now log (take retained times.old) owners.old numbers.old values.old count) owners.old numbers.old values.old count begins.now pairs.now }
    requires event_there { EventThere words.now × (0 < length words.now) × (log.points + points_added words.now ≤ most_points) }
    requires most_nodes_in_bounds { (most_nodes ≤ length masks.now) × (most_nodes ≤ length counts.now) × (most_nodes ≤ length lows.now) × (most_nodes + 1 ≤ length begins.now) × (most_nodes ≤ length pairs.now) }
    ensures { TakesIn (stored_in rule.now log (take retained times.old) owners.old numbers.old values.old count) words.now report.old report.new times.old owners.old numbers.old values.old times.new owners.new numbers.new values.new (weighed_now (stored_in rule.now log (take retained times.old) owners.old numbers.old values.old count) words.now (length report.old)) result }
{
    let n = figures::node_total(rule);
    let k = retained + 1;
    let mut stamps = [0u32; TIME_WORDS];
    let mut after = [0u32; MOST_NODES];
    let mut table = [0u32; MOST_NODES * NODE_WORDS];
    let needed = figures::call_table(
        rule,
        log,
        &times[..retained],
        words,
        masks,
        &counts[..n],
        lows,
        begins,
        pairs,
        &mut stamps,
        &mut after,
        &mut table,
    );
    let weighed = workspace::settle_in_room(
        rule,
        &table,
        &stamps[..k],
        log,
        words,
        owners,
        numbers,
        values,
        count,
        report,
        needed,
    );
    let added = progress::points_added(words);
    let m = retained + added as usize;
    finish(
        weighed,
        &after[..n],
        log.points + added,
        &stamps[..m],
        times,
    )
}

// What is handed in, in any state that stands in the slices: 8, then the first checks, then what follows.
fn take_stored(
    handed: Handed<'_>,
    rule: &[u8],
    log: LogEnd,
    times: &mut [u32],
    retained: usize,
    owners: &mut [u32],
    numbers: &mut [u32],
    values: &mut [u32],
    count: usize,
    report: &mut [u32],
) -> Result<Taken, Refusal>
    requires { SizedWords times.old owners.old numbers.old values.old retained count }
    ensures { TakesIn (stored_in rule.now log (take retained times.old) owners.old numbers.old values.old count) (words_of (fed_of handed.entry)) report.old report.new times.old owners.old numbers.old values.old times.new owners.new numbers.new values.new (take_answer (stored_in rule.now log (take retained times.old) owners.old numbers.old values.old count) (fed_of handed.entry) (length report.old)) result }
{
    let mut masks = [0u8; MOST_NODES];
    let mut counts = [0u32; MOST_NODES];
    let mut lows = [0u32; MOST_NODES];
    let mut begins = [0u32; MOST_NODES + 1];
    let mut pairs = [0u32; MOST_NODES];
    if !formed::well_formed(
        rule,
        log,
        &times[..retained],
        owners,
        numbers,
        values,
        count,
        &mut masks,
        &mut counts,
        &mut lows,
        &mut begins,
        &mut pairs,
    ) {
        return Err(Refusal::NotWellFormed); // by what is stored, not by a length
    }
    events::admit_handed(handed, rule, log)?;
    let words = handed.words();
    take_admitted(
        rule, log, times, retained, owners, numbers, values, count, words, report, &masks, &counts,
        &lows, &begins, &pairs,
    )
}

// Whether slices have the lengths of a state's arrays.
#[tactic(auto, unfolding(crate::specs::Lent::lengths_are))]
pub fn lengths_fit(rule: usize, times: usize, owners: usize, numbers: usize, values: usize) -> bool
    ensures { result ≡ lengths_are rule times owners numbers values }
{
    rule == RULE_BYTES
        && times == TIME_WORDS
        && owners == MOST_KEPT
        && numbers == MOST_KEPT
        && values == VALUES
}

// Takes what is handed in: the one way for both. Slices of any length and content, any report buffer; where a length isn't a state's the answer is 8. How many words of the report are written.
pub fn take_handed(
    lent: &mut Taking<'_>,
    handed: Handed<'_>,
    report: &mut [u32],
) -> Result<u32, Refusal>
    ensures takes { TakesLent (lent_in lent.old) (fed_of handed.entry) report.old result (lent_in lent.new) report.new }
    ensures same { SameWords lent.old lent.new }
{
    if !lengths_fit(
        lent.rule.len(),
        lent.times.len(),
        lent.owners.len(),
        lent.numbers.len(),
        lent.values.len(),
    ) {
        return Err(Refusal::NotWellFormed);
    }
    if !figures::figures_fit(lent.bytes, lent.retained, lent.count) {
        return Err(Refusal::NotWellFormed);
    }
    let rule = lent.rule;
    let n = lent.bytes as usize;
    let retained = lent.retained as usize;
    let count = lent.count as usize;
    let log = lent.log;
    let taken = take_stored(
        handed,
        &rule[..n],
        log,
        lent.times,
        retained,
        lent.owners,
        lent.numbers,
        lent.values,
        count,
        report,
    )?;
    let words = handed.words();
    lent.log = LogEnd {
        points: log.points + progress::points_added(words),
        latest: Stamp(words[0]),
    };
    lent.retained = taken.retained;
    lent.count = taken.written.kept;
    Ok(taken.written.words)
}

// Takes an event, any words.
pub fn take(lent: &mut Taking<'_>, event: &[u32], report: &mut [u32]) -> Result<u32, Refusal>
    ensures takes { TakesLent (lent_in lent.old) (event_of event.now) report.old result (lent_in lent.new) report.new }
    ensures same { SameWords lent.old lent.new }
{
    take_handed(lent, Handed::Event(event), report)
}

// Takes a clock notice, a time and no point, in the same way.
pub fn notice(lent: &mut Taking<'_>, time: u32, report: &mut [u32]) -> Result<u32, Refusal>
    ensures takes { TakesLent (lent_in lent.old) (notice time) report.old result (lent_in lent.new) report.new }
    ensures same { SameWords lent.old lent.new }
{
    take_handed(lent, Handed::Notice(&[time]), report)
}
