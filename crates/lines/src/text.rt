// The lines that are printed. Each function puts its text into lent bytes from a place on and answers the place after it.
ghost use Rattle.std.specs.Prelude.{◌+◌, ◌≤◌, length};
ghost use Rattle.io.specs.Digits.{last_digits, IsDigitCount};
ghost use Rattle.writer.specs.Puts.{Put};
ghost use Rattle.lines.specs.Text.{decimal, figure, accepted_line, refused_line, point_line, last_line, row_line};

use meaning::{Point, Stamp};
use refusals::Numbered;

pub fn put_text(out: &mut [u8], at: usize, text: &[u8]) -> usize
    requires { at + length text.now ≤ length out.old }
    ensures { Put out.old at text.now out.new result }
{
    let n = text.len();
    let mut k = 0;
    while k < n {
        out[at + k] = text[k];
        k += 1;
    }
    at + n
}

// How many digits a number has.
fn digit_count(n: u32) -> usize
    ensures { IsDigitCount 10 1 n result }
{
    if n < 10 {
        return 1;
    }
    if n < 100 {
        return 2;
    }
    if n < 1000 {
        return 3;
    }
    if n < 10000 {
        return 4;
    }
    if n < 100000 {
        return 5;
    }
    if n < 1000000 {
        return 6;
    }
    if n < 10000000 {
        return 7;
    }
    if n < 100000000 {
        return 8;
    }
    if n < 1000000000 {
        return 9;
    }
    10
}

// Puts the last `k` digits of a number, the last one first.
fn put_digits(out: &mut [u8], at: usize, k: usize, n: u32)
    requires { at + k ≤ length out.old }
    ensures { Put out.old at (last_digits 10 k n) out.new (at + k) }
{
    let mut i = k;
    let mut rest = n;
    while 0 < i {
        i -= 1;
        out[at + i] = 48 + (rest % 10) as u8;
        rest /= 10;
    }
}

fn put_number(out: &mut [u8], at: usize, n: u32) -> usize
    requires { at + length (decimal n) ≤ length out.old }
    ensures { Put out.old at (decimal n) out.new result }
{
    let k = digit_count(n);
    put_digits(out, at, k, n);
    at + k
}

// Puts some words and a figure behind them.
fn put_figure(out: &mut [u8], at: usize, words: &[u8], n: u32) -> usize
    requires { at + length (figure words.now n) ≤ length out.old }
    ensures { Put out.old at (figure words.now n) out.new result }
{
    let after = put_text(out, at, words);
    put_number(out, after, n)
}

pub fn put_accepted(out: &mut [u8], at: usize, reach: u32) -> usize
    requires { at + length (accepted_line reach) ≤ length out.old }
    ensures { Put out.old at (accepted_line reach) out.new result }
{
    let a = put_figure(out, at, b"rule ok reach ", reach);
    put_text(out, a, b"\n")
}

pub fn put_refused(out: &mut [u8], at: usize, told: Numbered) -> usize
    requires { at + length (refused_line told.0 told.1) ≤ length out.old }
    ensures { Put out.old at (refused_line told.0 told.1) out.new result }
{
    let a = put_figure(out, at, b"refused ", told.0);
    let b = put_figure(out, a, b" place ", told.1);
    put_text(out, b, b"\n")
}

pub fn put_point(out: &mut [u8], at: usize, i: Point, t: Stamp, rows: u32) -> usize
    requires { at + length (point_line i t rows) ≤ length out.old }
    ensures { Put out.old at (point_line i t rows) out.new result }
{
    let a = put_figure(out, at, b"point ", i.0);
    let b = put_figure(out, a, b" time ", t.0);
    let c = put_figure(out, b, b" rows ", rows);
    put_text(out, c, b"\n")
}

pub fn put_last(out: &mut [u8], at: usize, unsettled: u32, kept: u32) -> usize
    requires { at + length (last_line unsettled kept) ≤ length out.old }
    ensures { Put out.old at (last_line unsettled kept) out.new result }
{
    let a = put_figure(out, at, b"open ", unsettled);
    let b = put_figure(out, a, b" kept ", kept);
    put_text(out, b, b"\n")
}

pub fn put_row(out: &mut [u8], at: usize, row: &[u32]) -> usize
    requires { at + length (row_line row.now) ≤ length out.old }
    ensures { Put out.old at (row_line row.now) out.new result }
{
    let n = row.len();
    if n == 0 {
        return put_text(out, at, b"\n");
    }
    let mut end = put_number(out, at, row[0]);
    let mut k = 1;
    while k < n {
        end = put_figure(out, end, b" ", row[k]);
        k += 1;
    }
    put_text(out, end, b"\n")
}
