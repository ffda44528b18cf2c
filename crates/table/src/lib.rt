// Tables: the padding word, words that name entries, how wide a row is, and all that writes padding.
#![tactic(auto)]

ghost use Rattle.std.specs.Prelude.{◌≡◌, ◌+◌, ◌*◌, ◌≤◌, ◌<◌, length, take};
ghost use Rattle.definition.specs.Slack.{slack};
ghost use Rattle.definition.specs.Tables.{padded, only_pad};
ghost use Rattle.table.specs.Rows.{Stretched, IdsCopied};

// What no id is.
pub const PADDING: u32 = 0xFFFFFFFF;

// The entry that a word names; a word as a number.
pub fn index_of(word: u32) -> usize
    ensures { result ≡ word }
{
    word as usize
}

// An entry as the word that names it.
pub fn word_of(i: usize) -> u32
    requires { i < 65536 }
    ensures { result ≡ i }
{
    i as u32
}

// How many words a row of a wide table has.
pub fn slack(degree: usize) -> usize
    requires { degree ≤ 64 }
    ensures { result ≡ slack degree }
{
    (13 * degree + 9) / 10
}

// Whether every word is padding. There is no way out of the loop, so that it is done on several words at once.
pub fn only_padding(words: &[u32]) -> bool
    ensures { result ≡ only_pad words.now }
{
    let mut found = false;
    for &word in words {
        found |= word != PADDING;
    }
    !found
}

// Padding from place `from` on.
pub fn pad_from(row: &mut [u32], from: usize)
    requires { from ≤ length row.old }
    ensures { row.new ≡ padded (length row.old) (take from row.old) }
{
    row[from..].fill(PADDING);
}

// A whole row: the ids, and then padding.
fn write_padded(row: &mut [u32], ids: &[u32])
    requires { length ids.now ≤ length row.old }
    ensures { row.new ≡ padded (length row.old) ids.now }
{
    let m = ids.len();
    row[..m].copy_from_slice(ids);
    pad_from(row, m);
}

// The same, into a row's stretch of a lent table: all other words stay as they are.
pub fn put_row(table: &mut [u32], place: usize, width: usize, ids: &[u32])
    requires { (place * width + width ≤ length table.old) × (length ids.now ≤ width) }
    ensures { Stretched table.old table.new place width (length ids.now) ids.now }
{
    let at = place * width;
    write_padded(&mut table[at..at + width], ids);
}

// The ids of a row, in their order, to the front of `out`: how many there are.
pub fn copy_ids(row: &[u32], out: &mut [u32]) -> usize
    requires { length row.now ≤ length out.old }
    ensures { IdsCopied row.now out.new result }
{
    let mut count = 0;
    for &word in row {
        if word != PADDING {
            out[count] = word;
            count += 1;
        }
    }
    count
}
