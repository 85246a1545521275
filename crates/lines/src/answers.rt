// The text of an answer, put into lent bytes.
ghost use Rattle.std.specs.Prelude.{◌≡◌, true, ◌+◌, ◌*◌, ◌^◌, ◌≤◌, ◌<◌, length};
ghost use Rattle.meaning.specs.Lists.{gather};
ghost use Rattle.meaning.specs.Report.{in_form};
ghost use Rattle.rulefile.specs.Checked.{answer_of};
ghost use Rattle.report.specs.Form.{rows_from};
ghost use Rattle.writer.specs.Puts.{Put};
ghost use Rattle.lines.specs.Text.{row_line};
ghost use Rattle.lines.specs.Answers.{checked_text, report_text};

use crate::text::{put_accepted, put_point, put_refused, put_row};
use meaning::{Point, Stamp};
use refusals::of_rule;
use rulefile::{AcceptedRule, RuleRefusal};

// Puts the answer of checking a rule: a line, which has at most 64 bytes.
pub fn put_checked(out: &mut [u8], checked: Result<AcceptedRule, RuleRefusal>) -> usize
    requires { 64 ≤ length out.old }
    ensures put { Put out.old 0 (checked_text (answer_of checked)) out.new result }
    ensures upper_bound { result ≤ 64 }
{
    match checked {
        Ok(rule) => put_accepted(out, 0, rule.reach),
        Err(_) => put_refused(out, 0, of_rule(checked)),
    }
}

// A word as a size.
fn size(n: u32) -> usize
    ensures { (result ≡ n) × (result < 2 ^ 32) }
{
    n as usize
}

// Puts `count` rows of `width` words each, which stand from a word on.
fn put_rows(
    out: &mut [u8],
    at: usize,
    words: &[u32],
    start: usize,
    width: usize,
    count: usize,
) -> usize
    requires count_in_bounds { start + width * count ≤ length words.now }
    requires count_in_bounds_2 { at + length (gather row_line (rows_from words.now start width width count)) ≤ length out.old }
    ensures { Put out.old at (gather row_line (rows_from words.now start width width count)) out.new result }
{
    let mut end = at;
    let mut from = start;
    let mut left = count;
    while 0 < left {
        let to = from + width;
        end = put_row(out, end, &words[from..to]);
        from = to;
        left -= 1;
    }
    end
}

// Puts each point of a report and its rows below it.
fn put_points(out: &mut [u8], at: usize, words: &[u32]) -> usize
    requires words_value { in_form words.now ≡ true }
    requires words_in_bounds { at + length (report_text words.now) ≤ length out.old }
    ensures { Put out.old at (report_text words.now) out.new result }
{
    let points = size(words[0]);
    let width = size(words[1]);
    let mut end = at;
    let mut start = 3 + 3 * points;
    let mut k = 0;
    while k < points {
        let head = 3 + 3 * k;
        let count = words[head + 2];
        let below = put_point(out, end, Point(words[head]), Stamp(words[head + 1]), count);
        let rows = size(count);
        end = put_rows(out, below, words, start, width, rows);
        start += width * rows;
        k += 1;
    }
    end
}

// Puts the points of a report of at most 4,326 words, such as the listing's buffer has; any words whatever, and nothing where they are no report. Each value takes at most 11 bytes, and each point 49 more.
pub fn put_report(out: &mut [u8], at: usize, words: &[u32]) -> usize
    requires { (at + 53504 ≤ length out.old) × (length words.now ≤ 4326) }
    ensures { Put out.old at (report_text words.now) out.new result }
{
    if !report::in_form(words) {
        return at;
    }
    put_points(out, at, words)
}
