// What is read off the bytes of an input: its rule, and the event that comes next.
ghost use Rattle.std.specs.Prelude.{◌≡◌, ◌*◌, ◌≤◌, length};
ghost use Rattle.writer.specs.Puts.{Put};
ghost use Rattle.lines.specs.Input.{words_in, rule_end, rule_in, event_end, Reads};

use meaning::{MOST_ROWS, RULE_BYTES};
use rulenodes::word_at;
use std::io::Read;

// Rows at most that an event has.
const ROWS: usize = MOST_ROWS as usize;

// The next event, with so many words; one that is cut short or has over 32 rows; or the end of input.
#[derive(Clone, Copy)]
pub enum Next {
    Event(usize),
    Cut,
    Ended,
}

// Reads once, and answers how many bytes that gave: none at the end of input, or where the read fails.
pub fn read_some<R: Read>(input: &mut R, bytes: &mut [u8]) -> usize
    ensures { result ≤ length bytes.new }
{
    match input.read(bytes) {
        Ok(n) => n,
        Err(_) => 0,
    }
}

// Reads until the bytes are full or a read gives none, and answers how many were read.
pub fn read_full<R: Read>(input: &mut R, bytes: &mut [u8]) -> usize
    ensures { result ≤ length bytes.new }
{
    let mut done = 0;
    while done < bytes.len() {
        let n = read_some(input, &mut bytes[done..]);
        if n == 0 {
            break;
        }
        done += n;
    }
    done
}

// Puts the first n words of some bytes to the front of others.
fn put_words(bytes: &[u8], words: &mut [u32], n: usize)
    requires { (4 * n ≤ length bytes.now) × (n ≤ length words.old) }
    ensures { Put words.old 0 (words_in bytes.now n) words.new n }
{
    let mut k = 0;
    while k < n {
        words[k] = word_at(bytes, 4 * k);
        k += 1;
    }
}

// Where the rule ends, from its length word and whatever is read behind it: so far there is something to read.
pub fn rule_end(bytes: &[u8]) -> usize
    ensures { (result ≡ rule_end bytes.now) × (4 ≤ result) × (result ≤ 656) }
{
    if bytes.len() < 4 {
        return 4;
    }
    let n = word_at(bytes, 0) as usize;
    if n > RULE_BYTES {
        return 4;
    }
    4 + n
}

// The rule's bytes.
pub fn rule_in<'a>(bytes: &'a [u8]) -> &'a [u8]
    ensures { result.now ≡ rule_in bytes.now }
{
    let end = rule_end(bytes);
    if end > bytes.len() {
        return &bytes[0..0];
    }
    &bytes[4..end]
}

// Where the event ends that the bytes begin with: so far there is something to read.
pub fn event_end(bytes: &[u8]) -> usize
    ensures { (result ≡ event_end bytes.now) × (8 ≤ result) × (result ≤ 648) }
{
    if bytes.len() < 8 {
        return 8;
    }
    let rows = word_at(bytes, 4) as usize;
    if rows > ROWS {
        return 8;
    }
    8 + 20 * rows
}

// Reads the event that the bytes begin with, and puts its words into `words`.
pub fn next_event(bytes: &[u8], words: &mut [u32]) -> Next
    requires { 162 ≤ length words.old }
    ensures { Reads bytes.now words.old words.new result }
{
    if bytes.len() == 0 {
        return Next::Ended;
    }
    if bytes.len() < 8 {
        return Next::Cut;
    }
    let rows = word_at(bytes, 4) as usize;
    if rows > ROWS {
        return Next::Cut;
    }
    if bytes.len() < 8 + 20 * rows {
        return Next::Cut;
    }
    let n = 2 + 5 * rows;
    put_words(bytes, words, n);
    Next::Event(n)
}
