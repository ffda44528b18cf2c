// 8: the search rule and the build rule.

ghost use Rattle.std.specs.Prelude.{◌≡◌, ◌*◌, ◌≤◌, not, length};
ghost use Rattle.definition.specs.Tables.{search_rule, build_row, build_rule};
ghost use Rattle.definition.specs.Refusals.{bad_searched, bad_table};
ghost use Rattle.definition.specs.Slack.{slack};
ghost use Rattle.checks.specs.Front.{entries};
ghost use Rattle.checks.specs.Rows.{RowReady};

use super::limits::bad_length;
use checks_repeats::row_repeats;
use table::{only_padding, slack};

// Whether a word is neither padding nor an id. One more than padding wraps to 0, so one comparison of a word settles both;
// there is no way out of the loop, so that it is done on several words at once.
pub fn has_foreign(n: usize, words: &[u32]) -> bool
    requires { n ≤ 65536 }
    ensures { result ≡ not (search_rule n words.now) }
{
    let most = n as u32;
    let mut found = false;
    for &word in words {
        found |= most < word.wrapping_add(1);
    }
    found
}

// A table that is searched: one pass over it.
pub fn bad_searched(n: usize, degree: usize, table: &[u32]) -> bool
    requires { (n ≤ 65536) × (degree ≤ 64) }
    ensures { result ≡ bad_searched n degree table.now }
{
    bad_length(n, degree, table.len()) || has_foreign(n, table)
}

// How many words are ids below n.
pub fn count_entries(n: usize, words: &[u32]) -> usize
    requires { (n ≤ 65536) × (length words.now ≤ 128) }
    ensures { (result ≡ length (entries n words.now)) × (result ≤ length words.now) }
{
    let most = n as u32;
    let mut count: u32 = 0;
    // By hand: `filter` and `count` go on word by word, with a branch at each (seen in the machine code).
    for &word in words {
        if word < most {
            count += 1;
        }
    }
    count as usize
}

// Whether the row of `own` breaks the build rule. Where only padding stands beyond as many words as there are ids below n, those words are the ids.
fn bad_row(n: usize, own: usize, marks: &mut [u8], words: &[u32]) -> bool
    requires { RowReady n own marks.old words.now }
    ensures { result ≡ not (build_row n own words.now) }
{
    let count = count_entries(n, words);
    !only_padding(&words[count..]) || row_repeats(marks, own as u32, &words[..count])
}

// Whether a row breaks the build rule: one pass over the table.
fn bad_rows(n: usize, width: usize, table: &[u32]) -> bool
    requires { (n ≤ 65536) × (width ≤ 128) × (length table.now ≡ n * width) }
    ensures { result ≡ not (build_rule n width table.now) }
{
    let mut marks = [0u8; 16384];
    // By hand: rows may have no words by the contract, which `chunks_exact` does not take.
    for i in 0..n {
        let at = i * width;
        if bad_row(n, i, &mut marks, &table[at..at + width]) {
            return true;
        }
    }
    false
}

// A table that is read under the build rule.
pub fn bad_table(n: usize, width: usize, table: &[u32]) -> bool
    requires { (n ≤ 65536) × (width ≤ 128) }
    ensures { result ≡ bad_table n width table.now }
{
    bad_length(n, width, table.len()) || bad_rows(n, width, table)
}

// A wide table, by the degree: its rows have slack(degree) words.
pub fn bad_wide(n: usize, degree: usize, table: &[u32]) -> bool
    requires { (n ≤ 65536) × (degree ≤ 64) }
    ensures { result ≡ bad_table n (slack degree) table.now }
{
    bad_table(n, slack(degree), table)
}
