// Checks the rule file on standard input and prints its reach, or the refusal and its place.
#![tactic(auto)]

ghost use Rattle.std.specs.Prelude.{◌≡◌, List, ℕ, ◌≤◌, length, take};
ghost use Rattle.meaning.specs.RuleFile.{checking};
ghost use Rattle.writer.specs.Puts.{Put};
ghost use Rattle.lines.specs.Answers.{checked_text};

use lines::{put_checked, read_full};
use rulefile::check;
use std::io::Print;

// Puts the answer for a whole file, of which the first 653 bytes were read, n of them if it has no more. A rule has at most 652, so that these are enough.
fn put_file(out: &mut [u8], file: &[u8], n: usize) -> usize
    requires { (64 ≤ length out.old) × (653 ≡ length file.now) × (n ≤ 653) }
    ensures by_index { (whole : List ℕ) → take 653 whole ≡ take n file.now → Put out.old 0 (checked_text (checking whole)) out.new result }
    ensures upper_bound { result ≤ 64 }
{
    put_checked(out, check(&file[0..n]))
}

fn main(rt: HostRuntime) {
    let mut file = [0u8; meaning::RULE_BYTES + 1];
    let n = read_full(&mut rt.stdin(), &mut file);
    let mut line = [0u8; 64];
    let end = put_file(&mut line, &file, n);
    let _ = rt.stdout().write_all(&line[..end]);
}
