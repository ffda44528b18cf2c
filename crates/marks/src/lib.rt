// Part 3. Marks: an entry is visited where its mark is the epoch. They lie from 0 on in the words, and word n is one mark more, of what is no entry: it is
// the epoch in every walk, so that no word of a row needs a test of its own (crate scratch says where all lies).
#![tactic(auto)]

ghost use Rattle.std.specs.Prelude.{◌≡◌, ◌+◌, ◌≤◌, ◌<◌, length};
ghost use Rattle.theory.specs.build.Walks.{epoch_end};
ghost use Rattle.marks.specs.Marked.{Marked, FirstEpoch, mark_of, new_of, Notes, Gathers};

// A call begins with zero marks and epoch 1.
pub fn first_epoch(words: &mut [u32], n: usize) -> u32
    requires { n ≤ length words.old }
    ensures { FirstEpoch n words.old words.new result }
{
    scratch::clear_words(&mut words[0..n]);
    1
}

// The epoch of the next walk: one more, and so above every mark. No call makes so many walks that it comes near the last (theory, Walks).
pub fn next_epoch(epoch: u32) -> u32
    requires { epoch + 1 < epoch_end }
    ensures { result ≡ epoch + 1 }
{
    epoch + 1
}

// One word of a row: its mark is set, that of n where it is no entry, and it is written behind the `count` new ids. It is one of them where it was not
// marked: that is added as a number, so that nothing branches on it.
fn note(words: &mut [u32], n: u32, epoch: u32, word: u32, fresh: &mut [u32], count: usize) -> usize
    requires marked { Marked n epoch words.old }
    requires count_in_bounds { count < length fresh.old }
    ensures { Notes n epoch word words.old words.new fresh.old fresh.new count result }
{
    let entry = word.min(n);
    let i = entry as usize;
    let new = usize::from(words[i] != epoch);
    words[i] = epoch;
    fresh[count] = entry;
    count + new
}

// The new ids of a row, in order; what is no entry is skipped wherever it stands. Returns how many they are.
pub fn gather(words: &mut [u32], n: u32, epoch: u32, row: &[u32], fresh: &mut [u32]) -> usize
    requires marked { Marked n epoch words.old }
    requires row_in_bounds { length row.now ≤ length fresh.old }
    ensures { Gathers n epoch words.old words.new row.now fresh.new result }
{
    let mut count = 0;
    for word in row {
        count = note(words, n, epoch, *word, fresh, count);
    }
    count
}
