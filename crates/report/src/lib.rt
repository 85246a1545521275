// "Read rows": the row count and the rows of one entry of a report, from words of which nothing is assumed.
#![tactic(auto)]

ghost use Rattle.std.specs.Prelude.{◌≡◌, ◌&&◌, [], ◌∷◌, map, ◌+◌, ◌*◌, ◌≤◌, ◌<◌, length, get_or, take, drop, ltb, eqb};
ghost use Rattle.meaning.specs.Outcome.{most_reported};
ghost use Rattle.meaning.specs.Lists.{all, range};
ghost use Rattle.meaning.specs.Order.{before, ascending};
ghost use Rattle.meaning.specs.Report.{points_in, free_in, total_in, point_in, count_in, rows_before, rows_in, in_form, read_count, read_rows};
ghost use Rattle.report.specs.Answer.{answer_of, part_of};
ghost use Rattle.rowset.specs.Rows.{words_of};
ghost use Rattle.report.specs.Form.{four, rows_from, WordAt, sizes_fit, Sized, Summed, Sum};

use meaning::MOST_OPEN;
use rowset::Row;

// Points at most that a report has: those that were open, and the one taken.
const MOST_REPORTED: usize = MOST_OPEN as usize + 1;

// What reading the row count of an entry answers. Refused is 01's number 17, place 0.
#[derive(Clone, Copy)]
pub enum RowCount {
    Rows(u32),
    Refused,
}

// A run of a report's words.
#[derive(Clone, Copy)]
pub struct Part {
    pub start: usize,
    pub len: usize,
}

// Word `c` of the row of `width` words at `i`, 0 past its end.
fn word_of(words: &[u32], i: usize, width: usize, c: usize) -> u32
    requires { i + width ≤ length words.now }
    ensures { result ≡ get_or (take width (drop i words.now)) c 0 }
{
    if c < width { words[i + c] } else { 0 }
}

// The row of `width` words at `i`, made up to four with zeros.
fn row_of(words: &[u32], i: usize, width: usize) -> Row
    requires { i + width ≤ length words.now }
    ensures { words_of result ≡ four (take width (drop i words.now)) }
{
    Row {
        v0: word_of(words, i, width, 0),
        v1: word_of(words, i, width, 1),
        v2: word_of(words, i, width, 2),
        v3: word_of(words, i, width, 3),
    }
}

// Whether the row of `width` words at `i` stands before the row at `j`: column 0 ascends and the others descend. Rows are compared
// in one place, that of the sets of valuations.
fn row_before(words: &[u32], i: usize, j: usize, width: usize) -> bool
    requires { (i + width ≤ length words.now) × (j + width ≤ length words.now) × (width ≤ 4) }
    ensures { result ≡ before 0 (take width (drop i words.now)) (take width (drop j words.now)) }
{
    rowset::is_before(0, row_of(words, i, width), row_of(words, j, width))
}

// Whether `count` rows of `width` words, `stride` words apart, ascend. Rows of no words are refused at the first pair, so that no
// count, however large, is counted out.
fn run_ascends(words: &[u32], start: usize, stride: usize, width: usize, count: usize) -> bool
    requires { (width ≤ stride) × (width ≤ 4) × (start + stride * count ≤ length words.now) }
    ensures { result ≡ ascending 0 (rows_from words.now start stride width count) }
{
    let mut at = start;
    let mut left = count;
    while 1 < left {
        let next = at + stride;
        if !row_before(words, at, next, width) {
            return false;
        }
        at = next;
        left -= 1;
    }
    true
}

// Word `i`, as a number to compute with: a `usize` has 64 bits.
fn word(report: &[u32], i: usize) -> usize
    requires { i < length report.now }
    ensures { WordAt report.now i result }
{
    report[i] as usize
}

// The rows of the first `k` entries. 33 counts of 32 bits each add up exactly in 64 bits.
fn rows_before(report: &[u32], k: usize) -> u64
    requires { (k ≤ most_reported) × (3 + 3 * k ≤ length report.now) }
    ensures { Sum report.now k result }
{
    let mut sum: u64 = 0;
    let mut j = 0;
    while j < k {
        let n = word(report, 3 + 3 * j + 2);
        sum += n as u64;
        j += 1;
    }
    sum
}

// Sizes in range, and words enough. At most 4 words for each of at most 4,294,967,295 rows: the product is exact.
fn sizes_fit(report: &[u32]) -> bool
    ensures { result ≡ sizes_fit report.now }
{
    if report.len() < 3 {
        return false;
    }
    let points = word(report, 0);
    let free = word(report, 1);
    let total = word(report, 2);
    if MOST_REPORTED < points {
        return false;
    }
    if 4 < free {
        return false;
    }
    3 + 3 * points + free * total <= report.len()
}

// Whether the counts add to the total.
fn counts_add(report: &[u32]) -> bool
    requires { Sized report.now }
    ensures { result ≡ eqb (rows_before report.now (points_in report.now)) (total_in report.now) }
{
    let points = word(report, 0);
    let total = word(report, 2);
    rows_before(report, points) == total as u64
}

// A point is a row of one word.
fn points_ascend(report: &[u32]) -> bool
    requires { Sized report.now }
    ensures { result ≡ ascending 0 (map (λ k. point_in report.now k ∷ []) (range 0 (points_in report.now))) }
{
    let points = word(report, 0);
    run_ascends(report, 3, 3, 1, points)
}

// One pass over the entries, with the place of each entry's first row.
fn rows_ascend(report: &[u32]) -> bool
    requires { Summed report.now }
    ensures { result ≡ all (λ k. ascending 0 (rows_in report.now k)) (range 0 (points_in report.now)) }
{
    let points = word(report, 0);
    let free = word(report, 1);
    let mut at = 3 + 3 * points;
    let mut k = 0;
    while k < points {
        let count = word(report, 3 + 3 * k + 2);
        if !run_ascends(report, at, free, free, count) {
            return false;
        }
        at += free * count;
        k += 1;
    }
    true
}

// Whether the words are a report: each test is made once the one before it has passed.
pub fn in_form(report: &[u32]) -> bool
    ensures { result ≡ in_form report.now }
{
    if !sizes_fit(report) {
        return false;
    }
    if !counts_add(report) {
        return false;
    }
    if !points_ascend(report) {
        return false;
    }
    rows_ascend(report)
}

// Whether the words are a report that has an entry `k`.
fn has_entry(report: &[u32], k: usize) -> bool
    ensures { result ≡ (in_form report.now && ltb k (points_in report.now)) }
{
    if !in_form(report) {
        return false;
    }
    k < word(report, 0)
}

// The place of the first row of entry `k`.
fn start_of(report: &[u32], k: usize) -> usize
    requires { Summed report.now × (k < points_in report.now) }
    ensures { result ≡ 3 + 3 * points_in report.now + free_in report.now * rows_before report.now k }
{
    let points = word(report, 0);
    let free = word(report, 1);
    let above = rows_before(report, k) as usize;
    3 + 3 * points + free * above
}

// The row count of entry `k`.
pub fn row_count(report: &[u32], k: usize) -> RowCount
    ensures { answer_of result ≡ read_count report.now k }
{
    if has_entry(report, k) {
        RowCount::Rows(report[3 + 3 * k + 2])
    } else {
        RowCount::Refused
    }
}

// Where the rows of entry `k` lie; no words where `row_count` refuses.
pub fn part_of(report: &[u32], k: usize) -> Part
    ensures { result ≡ part_of report.now k }
{
    if !has_entry(report, k) {
        return Part { start: 0, len: 0 };
    }
    let free = word(report, 1);
    let count = word(report, 3 + 3 * k + 2);
    let start = start_of(report, k);
    Part {
        start,
        len: free * count,
    }
}

// The rows of entry `k`, as that run of the report's own words; of no length where `row_count` refuses.
pub fn rows<'a>(report: &'a [u32], k: usize) -> &'a [u32]
    ensures { result.now ≡ read_rows report.now k }
{
    let part = part_of(report, k);
    let start = part.start;
    let end = start + part.len;
    &report[start..end]
}
