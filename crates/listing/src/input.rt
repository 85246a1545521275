// Reading standard input: the rule, no further than it goes; and of the events what is there.
ghost use Rattle.std.specs.Prelude.{◌≡◌, true, ◌&&◌, not, ◌+◌, ◌-◌, ◌≤◌, ◌<◌, length, take, drop, ltb};
ghost use Rattle.writer.specs.Puts.{Put};
ghost use Rattle.lines.specs.Input.{event_end};

use lines::{event_end, put_text, read_full, read_some, rule_end};
use std::io::Read;

// Reads the length word and the rule, and answers how many bytes there were.
pub fn read_rule<R: Read>(input: &mut R, bytes: &mut [u8]) -> usize
    requires { 656 ≤ length bytes.old }
    ensures { result ≤ 656 }
{
    let got = read_full(input, &mut bytes[0..4]);
    let end = rule_end(&bytes[0..got]);
    let more = read_full(input, &mut bytes[got..end]);
    got + more
}

// Whether the event that the bytes begin with isn't whole, and more of it may come.
pub fn is_short(bytes: &[u8], ended: bool) -> bool
    ensures value { result ≡ (not ended && ltb (length bytes.now) (event_end bytes.now)) }
    ensures bytes_len_bound { result ≡ true → length bytes.now < 648 }
{
    if ended {
        return false;
    }
    bytes.len() < event_end(bytes)
}

// Moves the bytes from a place up to another to the front, and answers how many they are.
fn to_front(bytes: &mut [u8], from: usize, to: usize) -> usize
    requires { (from ≤ to) × (to ≤ from + 648) × (to ≤ length bytes.old) }
    ensures put { Put bytes.old 0 (take (to - from) (drop from bytes.old)) bytes.new result }
    ensures value { result ≡ to - from }
{
    let mut rest = [0u8; 648];
    let n = put_text(&mut rest, 0, &bytes[from..to]);
    put_text(bytes, 0, &rest[0..n])
}

// Moves the bytes that are left to the front, reads once behind them, and answers how many there are then: as many as before at the end of input.
pub fn read_more<R: Read>(input: &mut R, bytes: &mut [u8], from: usize, to: usize) -> usize
    requires { (from ≤ to) × (to ≤ from + 648) × (to ≤ length bytes.old) }
    ensures bytes_after { take (to - from) bytes.new ≡ take (to - from) (drop from bytes.old) }
    ensures to_bound { (to ≤ from + result) × (result ≤ length bytes.old) }
{
    let n = to_front(bytes, from, to);
    let got = read_some(input, &mut bytes[n..]);
    n + got
}
