// Runs of one word, words and rows put behind others, and sets appended to those of a call.
#![tactic(auto)]

ghost use Rattle.std.specs.Prelude.{◌≡◌, ◌+◌, ◌-◌, ◌*◌, ◌≤◌, ◌<◌, length, get_or};
ghost use Rattle.rowset.specs.Rows.{rows_from};
ghost use Rattle.rowset.specs.Sets.{Run};
ghost use Rattle.entries.specs.Entries.{run_of};
ghost use Rattle.entries.specs.Appended.{WordsPut, Copied, Space, Pushed};

// The place behind the run of that word at the cursor.
pub fn run_end(words: &[u32], cursor: usize, count: usize, word: u32) -> usize
    requires { count ≤ length words.now }
    ensures { result ≡ cursor + run_of words.now cursor count word }
{
    for k in cursor..count {
        if words[k] != word {
            return k;
        }
    }
    cursor.max(count)
}

// Copies rows from..to to row end and on.
pub fn copy_rows(values: &[u32], from: usize, to: usize, rows: &mut [u32], end: usize)
    requires { Run values.now from to × ((end + (to - from)) * 4 ≤ length rows.old) }
    ensures { Copied rows.old end rows.new (to - from) (rows_from values.now from (to - from)) }
{
    // Not as words, since they are mostly few, and a call for each run of them takes more: a fiftieth more instructions for an event of 32 nodes.
    for i in from..to {
        rowset::put_row(rows, end + (i - from), rowset::row_at(values, i));
    }
}

// Appends rows from..to of another slice as set n.
pub fn push(set: &[u32], from: usize, to: usize, rows: &mut [u32], at: &mut [u32], n: usize)
    requires { Run set.now from to × Space rows.old at.old n (to - from) }
    ensures { Pushed rows.old at.old rows.new at.new n (to - from) (rows_from set.now from (to - from)) }
{
    let end = at[n] as usize;
    copy_rows(set, from, to, rows, end);
    at[n + 1] = (end + (to - from)) as u32;
}

// Puts n times the word at word `end` and on.
pub fn fill(word: u32, n: usize, words: &mut [u32], end: usize)
    requires { end + n ≤ length words.old }
    ensures { WordsPut words.old end words.new n (λ _. word) }
{
    words[end..end + n].fill(word);
}

// Copies the first n words to word `end` and on.
pub fn copy_words(from: &[u32], n: usize, words: &mut [u32], end: usize)
    requires { (n ≤ length from.now) × (end + n ≤ length words.old) }
    ensures { WordsPut words.old end words.new n (λ k. get_or from.now k 0) }
{
    // The library's `copy_from_slice` would have the archive need memmove from outside.
    for k in 0..n {
        words[end + k] = from[k];
    }
}
