// What is stored saved as an image, and an image read in, in memory that the caller lends.
#![tactic(auto)]

ghost use Rattle.std.specs.Prelude.{◌≡◌, true, ◌&&◌, [], ◌∷◌, ◌+◌, ◌*◌, ◌≤◌, ◌<◌, length, ltb};
ghost use Rattle.meaning.specs.Outcome.{most_nodes, most_bytes, most_kept};
ghost use Rattle.meaning.specs.RuleFile.{word_at, node_count};
ghost use Rattle.method.specs.WellFormed.{most_times, time_words, well_formed};
ghost use Rattle.entries.specs.Entries.{EntriesWithin};
ghost use Rattle.entries.specs.Appended.{WordsPut, at_front};
ghost use Rattle.formed.specs.StateFigures.{stored_in};
ghost use Rattle.call.specs.Blocks.{ListPut};
ghost use Rattle.image.specs.Image.{image_version, image_of, bytes_of, rule_bytes, is_image};
ghost use Rattle.image_words.specs.Parts.{owners_from, image_needs, SizesFit, LaidOut, ReadsOwners, EntriesRead, PartsStored, figures_read};
ghost use Rattle.image_words.specs.Promises.{lent_to_save, lent_to_read, SameParts, SavesStored, SavesLent, ReadsLent};

use lent_state::Loan;
use meaning::{LogEnd, MOST_KEPT, MOST_NODES, MOST_TIMES, RULE_BYTES, Stamp};

// The version of an image.
const VERSION: u32 = 1;

// The words of a rule file at most.
const RULE_WORDS: usize = RULE_BYTES / 4;

// The words of the longest image: five sizes, seven words for each entry, the times and the rule file.
pub const IMAGE_WORDS: usize = 5 + MOST_KEPT * 7 + MOST_TIMES + RULE_WORDS;

// Why a state isn't saved: what is stored isn't well formed, or the image needs more words than the buffer has, so many.
#[derive(Clone, Copy, Debug, PartialEq, Eq)]
pub enum Unsaved {
    NotWellFormed,
    Short(u32),
}

// Words that are no image.
#[derive(Clone, Copy, Debug, PartialEq, Eq)]
pub struct NotAnImage;

// What is lent for saving.
pub type Saving<'a> = Loan<&'a [u8], &'a [u32]>;

// What is lent for reading an image in.
pub type Reading<'a> = Loan<&'a mut [u8], &'a mut [u32]>;

// How many entries and times an image has.
#[derive(Clone, Copy)]
struct Layout {
    kept: usize,
    retained: usize,
}

// Puts three words from word `at` on.
fn put_three(a: u32, b: u32, c: u32, image: &mut [u32], at: usize)
    requires { at + 3 ≤ length image.old }
    ensures { ListPut image.old at image.new (a ∷ b ∷ c ∷ []) }
{
    image[at..at + 3].copy_from_slice(&[a, b, c]);
}

// Puts the owners of the entries behind the sizes: of each the node, the mark and the number.
fn put_owners(owners: &[u32], numbers: &[u32], count: usize, image: &mut [u32])
    requires { (count ≤ length owners.now) × (count ≤ length numbers.now) × (5 + count * 3 ≤ length image.old) }
    ensures { ListPut image.old 5 image.new (owners_from owners.now numbers.now count) }
{
    for k in 0..count {
        let owner = owners[k];
        put_three(owner / 2, owner % 2, numbers[k], image, 5 + k * 3);
    }
}

// Puts the five sizes.
fn put_sizes(log: LogEnd, kept: usize, retained: usize, image: &mut [u32])
    requires { (5 ≤ length image.old) × (kept ≤ most_kept) × (retained ≤ most_times) }
    ensures { ListPut image.old 0 image.new (image_version ∷ log.points ∷ log.latest.0 ∷ kept ∷ retained ∷ []) }
{
    image[..5].copy_from_slice(&[
        VERSION,
        log.points,
        log.latest.0,
        kept as u32,
        retained as u32,
    ]);
}

// Puts n words of the rule file from word `at` on.
fn put_rule(rule: &[u8], n: usize, image: &mut [u32], at: usize)
    requires { (n * 4 ≤ length rule.now) × (at + n ≤ length image.old) }
    ensures { WordsPut image.old at image.new n (λ k. word_at rule.now (k * 4)) }
{
    for k in 0..n {
        image[at + k] = rulenodes::word_at(rule, k * 4);
    }
}

// Puts the image of what is stored, under a rule whose bytes fill their words, to the front.
fn put_image(
    rule: &[u8],
    log: LogEnd,
    times: &[u32],
    owners: &[u32],
    numbers: &[u32],
    values: &[u32],
    count: usize,
    image: &mut [u32],
)
    requires entries_within { EntriesWithin owners.now numbers.now values.now count × (count ≤ most_kept) × (length times.now ≤ most_times) }
    requires rule_len { (length rule.now ≡ 12 + 20 * node_count rule.now) × (image_needs (length rule.now) (length times.now) count ≤ length image.old) }
    ensures { image.new ≡ at_front (image_of (stored_in rule.now log times.now owners.now numbers.now values.now count)) image.old }
{
    let retained = times.len();
    put_sizes(log, count, retained, image);
    put_owners(owners, numbers, count, image);
    entries::copy_words(values, count * 4, image, 5 + count * 3);
    entries::copy_words(times, retained, image, 5 + count * 7);
    put_rule(rule, rule.len() / 4, image, 5 + count * 7 + retained);
}

// Whether what is stored is well formed: slices as for `formed::well_formed`, whose figures aren't asked for.
fn well_formed(
    rule: &[u8],
    log: LogEnd,
    times: &[u32],
    owners: &[u32],
    numbers: &[u32],
    values: &[u32],
    count: usize,
) -> bool
    requires { EntriesWithin owners.now numbers.now values.now count }
    ensures { result ≡ well_formed (stored_in rule.now log times.now owners.now numbers.now values.now count) }
{
    let mut masks = [0u8; MOST_NODES];
    let mut counts = [0u32; MOST_NODES];
    let mut lows = [0u32; MOST_NODES];
    let mut begins = [0u32; MOST_NODES + 1];
    let mut pairs = [0u32; MOST_NODES];
    formed::well_formed(
        rule,
        log,
        times,
        owners,
        numbers,
        values,
        count,
        &mut masks,
        &mut counts,
        &mut lows,
        &mut begins,
        &mut pairs,
    )
}

// Saves what is stored in the slices: 8, then 19, then the image.
fn save_stored(
    rule: &[u8],
    log: LogEnd,
    times: &[u32],
    owners: &[u32],
    numbers: &[u32],
    values: &[u32],
    count: usize,
    image: &mut [u32],
) -> Result<u32, Unsaved>
    requires { EntriesWithin owners.now numbers.now values.now count × (count ≤ most_kept) × (length times.now ≤ most_times) × (length rule.now ≤ most_bytes) }
    ensures { SavesStored (stored_in rule.now log times.now owners.now numbers.now values.now count) image.old result image.new }
{
    if !well_formed(rule, log, times, owners, numbers, values, count) {
        return Err(Unsaved::NotWellFormed);
    }
    let needed = 5 + count * 7 + times.len() + rule.len() / 4;
    if image.len() < needed {
        return Err(Unsaved::Short(needed as u32));
    }
    put_image(rule, log, times, owners, numbers, values, count, image);
    Ok(needed as u32)
}

// Saves a state: slices of any length and content, as for a taking, and any buffer. Where a length isn't a state's the answer is 8. How many words the image has.
pub fn save(lent: Saving<'_>, image: &mut [u32]) -> Result<u32, Unsaved>
    ensures { SavesLent (lent_to_save lent.entry) image.old result image.new }
{
    if !lent_state::lengths_fit(
        lent.rule.len(),
        lent.times.len(),
        lent.owners.len(),
        lent.numbers.len(),
        lent.values.len(),
    ) {
        return Err(Unsaved::NotWellFormed);
    }
    if !figures::figures_fit(lent.bytes, lent.retained, lent.count) {
        return Err(Unsaved::NotWellFormed);
    }
    save_stored(
        &lent.rule[..lent.bytes as usize],
        lent.log,
        &lent.times[..lent.retained as usize],
        lent.owners,
        lent.numbers,
        lent.values,
        lent.count as usize,
        image,
    )
}

// Reads the sizes of any words: the version, and whether there is room in a state for the entries and the times, for which there are words enough, and for the rule file, which the rest of the words are.
fn lay_out(image: &[u32]) -> Option<Layout>
    ensures { LaidOut image.now result }
{
    let n = image.len();
    if n < 5 {
        return None;
    }
    if image[0] != VERSION {
        return None;
    }
    let kept = image[3] as usize;
    let retained = image[4] as usize;
    if MOST_KEPT < kept {
        return None;
    }
    if MOST_TIMES < retained {
        return None;
    }
    let at = 5 + kept * 7 + retained;
    if n < at {
        return None;
    }
    if RULE_WORDS < n - at {
        return None;
    }
    Some(Layout { kept, retained })
}

// Puts the four bytes of a word from byte `at` on, the lowest first.
fn put_word(word: u32, bytes: &mut [u8], at: usize)
    requires { at + 4 ≤ length bytes.old }
    ensures { ListPut bytes.old at bytes.new (bytes_of word) }
{
    bytes[at..at + 4].copy_from_slice(&word.to_le_bytes());
}

// Puts the bytes of words to the front of others.
fn put_bytes(words: &[u32], bytes: &mut [u8])
    requires { length words.now * 4 ≤ length bytes.old }
    ensures { bytes.new ≡ at_front (rule_bytes words.now) bytes.old }
{
    for (k, word) in words.iter().enumerate() {
        put_word(*word, bytes, k * 4);
    }
}

// Whether an owner's words are a node's number and a mark of 0 or 1.
fn owner_fits(node: u32, mark: u32) -> bool
    ensures { result ≡ (ltb node most_nodes && ltb mark 2) }
{
    node < MOST_NODES as u32 && mark < 2
}

// Puts the owners and the numbers of the entries to the front of others, as a state has them; or one doesn't fit.
fn read_owners(image: &[u32], count: usize, owners: &mut [u32], numbers: &mut [u32]) -> bool
    requires { (5 + count * 3 ≤ length image.now) × (count ≤ length owners.old) × (count ≤ length numbers.old) }
    ensures { ReadsOwners image.now count owners.new numbers.new result }
{
    for k in 0..count {
        let at = 5 + k * 3;
        let node = image[at];
        let mark = image[at + 1];
        if !owner_fits(node, mark) {
            return false;
        }
        owners[k] = node * 2 + mark;
        numbers[k] = image[at + 2];
    }
    true
}

// Whether words of such sizes are an image. The owners and the numbers of their entries are read into the slices, as a state has them.
fn read_parts(image: &[u32], layout: Layout, owners: &mut [u32], numbers: &mut [u32]) -> bool
    requires { SizesFit image.now layout.kept layout.retained × (most_kept ≤ length owners.old) × (most_kept ≤ length numbers.old) }
    ensures answer { result ≡ is_image image.now }
    ensures entries { result ≡ true → EntriesRead image.now owners.new numbers.new layout.kept }
{
    let Layout { kept, retained } = layout;
    if !read_owners(image, kept, owners, numbers) {
        return false;
    }
    let at = 5 + kept * 7;
    let from = at + retained;
    let n = (image.len() - from) * 4;
    let mut rule = [0u8; RULE_BYTES];
    put_bytes(&image[from..], &mut rule);
    well_formed(
        &rule[0..n],
        LogEnd {
            points: image[1],
            latest: Stamp(image[2]),
        },
        &image[at..from],
        owners,
        numbers,
        &image[5 + kept * 3..],
        kept,
    )
}

// Puts the parts of an image to the front of a state's words, its owners and numbers as they were read.
fn store_parts(
    image: &[u32],
    layout: Layout,
    owned: &[u32],
    numbered: &[u32],
    rule: &mut [u8],
    times: &mut [u32],
    owners: &mut [u32],
    numbers: &mut [u32],
    values: &mut [u32],
)
    requires sizes_fit { SizesFit image.now layout.kept layout.retained × (most_kept ≤ length owned.now) × (most_kept ≤ length numbered.now) }
    requires rule_len { (length rule.old ≡ most_bytes) × (length times.old ≡ time_words) × (length owners.old ≡ most_kept) × (length numbers.old ≡ most_kept) × (length values.old ≡ most_kept * 4) }
    ensures { PartsStored image.now owned.now numbered.now layout.kept layout.retained rule.old times.old owners.old numbers.old values.old rule.new times.new owners.new numbers.new values.new }
{
    let Layout { kept, retained } = layout;
    let at = 5 + kept * 7;
    let from = at + retained;
    put_bytes(&image[from..], rule);
    entries::copy_words(&image[at..from], retained, times, 0);
    entries::copy_words(owned, kept, owners, 0);
    entries::copy_words(numbered, kept, numbers, 0);
    entries::copy_words(&image[5 + kept * 3..], kept * 4, values, 0);
}

// Tells of what is stored where its parts are: the rule's bytes, where the log ends, and how many times and entries there are.
fn set_figures(lent: &mut Reading<'_>, image: &[u32], layout: Layout)
    requires { SizesFit image.now layout.kept layout.retained }
    ensures told { lent_to_read lent.new ≡ figures_read image.now layout (lent_to_read lent.old) }
    ensures same { SameParts lent.old lent.new }
{
    let n = image.len() - (5 + layout.kept * 7 + layout.retained);
    lent.bytes = (n * 4) as u32;
    lent.log = LogEnd {
        points: image[1],
        latest: Stamp(image[2]),
    };
    lent.retained = layout.retained as u32;
    lent.count = layout.kept as u32;
}

// Reads any words in: slices of any length and content, as for a taking. Where a length isn't a state's the answer is 18, as for words that are no image. How many words were read.
pub fn restore(image: &[u32], lent: &mut Reading<'_>) -> Result<u32, NotAnImage>
    ensures read { ReadsLent (lent_to_read lent.old) image.now result (lent_to_read lent.new) }
    ensures same { SameParts lent.old lent.new }
{
    if !lent_state::lengths_fit(
        lent.rule.len(),
        lent.times.len(),
        lent.owners.len(),
        lent.numbers.len(),
        lent.values.len(),
    ) {
        return Err(NotAnImage);
    }
    let layout = lay_out(image).ok_or(NotAnImage)?;
    let mut owned = [0u32; MOST_KEPT];
    let mut numbered = [0u32; MOST_KEPT];
    if !read_parts(image, layout, &mut owned, &mut numbered) {
        return Err(NotAnImage);
    }
    store_parts(
        image,
        layout,
        &owned,
        &numbered,
        lent.rule,
        lent.times,
        lent.owners,
        lent.numbers,
        lent.values,
    );
    set_figures(lent, image, layout);
    Ok(image.len() as u32)
}
