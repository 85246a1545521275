// The words of a report, written front to back, and how many they are.
#![tactic(auto)]

ghost use Rattle.std.specs.Prelude.{◌≡◌, cond, List, [], ◌∷◌, ℕ, ◌+◌, ◌-◌, ◌*◌, ◌/◌, ◌%◌, ◌^◌, ◌≤◌, ◌<◌, length, get_or, eqb};
ghost use Rattle.meaning.specs.Lists.{gather};
ghost use Rattle.meaning.specs.Keeper.{report_row};
ghost use Rattle.rowset.specs.Rows.{words_of, rows_from};
ghost use Rattle.rowset.specs.Sets.{Run};
ghost use Rattle.kinds.specs.Kinds.{in_mask};
ghost use Rattle.writer.specs.Words.{free_count, set_of, first_row, end_row, triples, part_words, words, Marked, Reportable};
ghost use Rattle.writer.specs.Puts.{Put, handed, wrote, written_to};

use meaning::{Point, Stamp};
use progress::Retained;
use rowset::Row;
use rulenodes::has_bit;

// What a report is on: `count` points from `from` on, and the mask of the free variables. Set `first` of those lent is that of point `low`, and the first time lent is that of point `base`.
#[derive(Clone, Copy)]
pub struct Points {
    pub from: Point,
    pub count: u32,
    pub first: usize,
    pub low: Point,
    pub base: Point,
    pub mask: u8,
}

// The parts of a report, in the order in which they are written.
#[derive(Clone, Copy)]
pub enum Part {
    Sizes,
    Triples,
    Rows,
}

// A report for which the buffer is too short, by how many words it needs.
#[derive(Clone, Copy, Debug, PartialEq, Eq)]
pub struct Short {
    pub needed: usize,
}

// How many variables are free.
fn free_count(mask: u8) -> u32
    ensures { (result ≡ free_count mask) × (result ≤ 4) }
{
    u32::from(has_bit(mask, 1))
        + u32::from(has_bit(mask, 2))
        + u32::from(has_bit(mask, 4))
        + u32::from(has_bit(mask, 8))
}

// The set of point i.
fn set_of(p: Points, i: Point) -> usize
    requires { (p.low.0 ≤ i.0) × (set_of p i < 2 ^ 64) }
    ensures { result ≡ set_of p i }
{
    p.first + (i.0 - p.low.0) as usize
}

// The row where set q begins.
fn mark(marks: &[u32], q: usize) -> u32
    requires { q < length marks.now }
    ensures { result ≡ get_or marks.now q 0 }
{
    marks[q]
}

// The row where the sets of the points begin.
fn first_row(marks: &[u32], p: Points) -> u32
    requires { Marked marks.now p }
    ensures { result ≡ first_row marks.now p }
{
    mark(marks, set_of(p, p.from))
}

// The row after their last.
fn end_row(marks: &[u32], p: Points) -> u32
    requires { Marked marks.now p }
    ensures { result ≡ end_row marks.now p }
{
    mark(marks, set_of(p, p.from) + p.count as usize)
}

// How many rows they have.
fn row_count(marks: &[u32], p: Points) -> u32
    requires { Marked marks.now p }
    ensures { result ≡ end_row marks.now p - first_row marks.now p }
{
    end_row(marks, p) - first_row(marks, p)
}

// How many words the report has.
fn words_needed(marks: &[u32], p: Points) -> usize
    requires { Marked marks.now p }
    ensures { (rows times : List ℕ) → result ≡ length (words rows marks.now times p) }
{
    let total = row_count(marks, p);
    let free = free_count(p.mask);
    3 + 3 * (p.count as usize) + (free as usize) * (total as usize)
}

// Stores one word; where the next one goes.
fn put_at(buf: &mut [u32], at: usize, word: u32) -> usize
    requires { at + 1 ≤ length buf.old }
    ensures { Put buf.old at (word ∷ []) buf.new result }
{
    buf[at] = word;
    at + 1
}

// Writes a word where the variable of that bit is free.
fn put_free(mask: u8, bit: u8, buf: &mut [u32], at: usize, word: u32) -> usize
    requires bit_nonzero { 0 < bit }
    requires word_in_bounds { at + length (cond (eqb (mask / bit % 2) 1) (word ∷ []) []) ≤ length buf.old }
    ensures { Put buf.old at (cond (eqb (mask / bit % 2) 1) (word ∷ []) []) buf.new result }
{
    if has_bit(mask, bit) {
        return put_at(buf, at, word);
    }
    at
}

fn put_three(buf: &mut [u32], at: usize, a: u32, b: u32, c: u32) -> usize
    requires { at + 3 ≤ length buf.old }
    ensures { Put buf.old at (a ∷ b ∷ c ∷ []) buf.new result }
{
    let second = put_at(buf, at, a);
    let third = put_at(buf, second, b);
    put_at(buf, third, c)
}

// Writes a point's triple.
fn put_triple(buf: &mut [u32], at: usize, i: Point, t: Stamp, count: u32) -> usize
    requires { at + 3 ≤ length buf.old }
    ensures { Put buf.old at (i.0 ∷ t.0 ∷ count ∷ []) buf.new result }
{
    put_three(buf, at, i.0, t.0, count)
}

// Writes the triples of the points.
fn put_triples(marks: &[u32], times: &[u32], p: Points, buf: &mut [u32], at: usize) -> usize
    requires marked { Marked marks.now p }
    requires count_bound { p.from.0 + p.count < 2 ^ 32 }
    requires p_in_bounds { at + length (triples marks.now times.now p) ≤ length buf.old }
    ensures { Put buf.old at (triples marks.now times.now p) buf.new result }
{
    let end = p.from.0 + p.count;
    let mut k = at;
    let mut j = p.from.0;
    while j < end {
        let q = set_of(p, Point(j));
        let count = mark(marks, q + 1) - mark(marks, q);
        let t = Retained {
            times,
            base: p.base,
        }
        .time(Point(j));
        k = put_triple(buf, k, Point(j), t, count);
        j += 1;
    }
    k
}

// Writes the values of a row's free variables, lowest number first.
fn put_row(mask: u8, row: Row, buf: &mut [u32], at: usize) -> usize
    requires { at + length (report_row (in_mask mask) (words_of row)) ≤ length buf.old }
    ensures { Put buf.old at (report_row (in_mask mask) (words_of row)) buf.new result }
{
    let second = put_free(mask, 1, buf, at, row.v0);
    let third = put_free(mask, 2, buf, second, row.v1);
    let fourth = put_free(mask, 4, buf, third, row.v2);
    put_free(mask, 8, buf, fourth, row.v3)
}

// Writes the rows of a run, each by its free variables.
fn put_rows(mask: u8, rows: &[u32], from: usize, to: usize, buf: &mut [u32], at: usize) -> usize
    requires run { Run rows.now from to }
    requires from_in_bounds { at + length (gather (report_row (in_mask mask)) (rows_from rows.now from (to - from))) ≤ length buf.old }
    ensures { Put buf.old at (gather (report_row (in_mask mask)) (rows_from rows.now from (to - from))) buf.new result }
{
    let mut k = at;
    let mut i = from;
    while i < to {
        k = put_row(mask, rowset::row_at(rows, i), buf, k);
        i += 1;
    }
    k
}

// Writes a part of the report from a place on.
fn put_part(
    buf: &mut [u32],
    at: usize,
    part: Part,
    rows: &[u32],
    marks: &[u32],
    times: &[u32],
    p: Points,
) -> usize
    requires { Reportable rows.now marks.now p × (at + length (part_words part rows.now marks.now times.now p) ≤ length buf.old) }
    ensures { Put buf.old at (part_words part rows.now marks.now times.now p) buf.new result }
{
    match part {
        Part::Sizes => put_three(buf, at, p.count, free_count(p.mask), row_count(marks, p)),
        Part::Triples => put_triples(marks, times, p, buf, at),
        Part::Rows => {
            let from = first_row(marks, p);
            let to = end_row(marks, p);
            put_rows(p.mask, rows, from as usize, to as usize, buf, at)
        }
    }
}

// The buffer of a report, and where its next word goes.
#[derive(Drop)]
pub struct Writer<'a> {
    pub buf: &'a mut [u32],
    pub at: usize,
}

fn new<'a>(buf: &'a mut [u32]) -> Writer<'a>
    ensures { (result.buf ≡ buf.entry) × (result.at ≡ 0) }
{
    Writer { buf: buf, at: 0 }
}

// Writes a part of the report at the writer's place, and hands the writer on.
fn put<'a>(
    w: Writer<'a>,
    part: Part,
    rows: &[u32],
    marks: &[u32],
    times: &[u32],
    p: Points,
) -> Writer<'a>
    requires { Reportable rows.now marks.now p × (w.at + length (part_words part rows.now marks.now times.now p) ≤ length w.buf.now) }
    ensures { result ≡ handed w.entry (part_words part rows.now marks.now times.now p) }
{
    let at = w.at;
    let next = put_part(&mut *w.buf, at, part, rows, marks, times, p);
    Writer {
        buf: w.buf,
        at: next,
    }
}

// The same for a writer that is given by its buffer and its place.
fn put_from<'a>(
    buf: &'a mut [u32],
    at: usize,
    part: Part,
    rows: &[u32],
    marks: &[u32],
    times: &[u32],
    p: Points,
) -> Writer<'a>
    requires { Reportable rows.now marks.now p × (at + length (part_words part rows.now marks.now times.now p) ≤ length buf.old) }
    ensures { result ≡ handed (record { buf = buf.entry; at = at }) (part_words part rows.now marks.now times.now p) }
{
    put(Writer { buf, at }, part, rows, marks, times, p)
}

// Writes the report to the front of a buffer by one writer, which is asked first for the words that it has left; how many words were written.
pub fn write(
    buf: &mut [u32],
    rows: &[u32],
    marks: &[u32],
    times: &[u32],
    p: Points,
) -> Result<usize, Short>
    requires { Reportable rows.now marks.now p }
    ensures { (result ≡ wrote (words rows.now marks.now times.now p) buf.old) × (buf.new ≡ written_to (words rows.now marks.now times.now p) buf.old) }
{
    let needed = words_needed(marks, p);
    let w = new(buf);
    let left = w.buf.len() - w.at;
    if left < needed {
        return Err(Short { needed });
    }
    let Writer { buf, at } = w;
    let sized = put_from(buf, at, Part::Sizes, rows, marks, times, p);
    let Writer { buf, at } = sized;
    let told = put_from(buf, at, Part::Triples, rows, marks, times, p);
    let Writer { buf, at } = told;
    let done = put_from(buf, at, Part::Rows, rows, marks, times, p);
    Ok(done.at)
}
