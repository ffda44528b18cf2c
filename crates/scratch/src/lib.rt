// The two lent slices of scratch: where everything lies in them (specs/Layout says what lies where), and the room left zero when a call is done.
#![tactic(auto)]

ghost use Rattle.std.specs.Prelude.{◌≡◌, ◌+◌, ◌*◌, ◌≤◌, ◌<◌, length, replicate};
ghost use Rattle.std.specs.Float.Ieee.{of_bits};
ghost use Rattle.std.specs.Float.{binary32};
ghost use Rattle.scratch.specs.Layout.{visited_at, visited_dists_at, pool_at, stamps_at, pool_dists_at, pool_end, heads_at, seats_at, links_at};
ghost use Rattle.scratch.specs.Layout.{fresh_at, fresh_row_at, fresh_end, search_end, report_end, floats_end};
ghost use Rattle.scratch.specs.Clear.{FrontClear, RoomClear};

// The slack of the greatest degree: no row of a table has more words.
pub const WIDEST: usize = 84;

// How many words a fresh row has.
pub const FRESH_WIDTH: usize = 64;

// How many factors pruning needs, from 0 on in the floats: one for each entry that its cut leaves.
pub const FACTORS: usize = 750;

// How many floats a search is lent, and a report.
pub const SEARCH_FLOATS: usize = 512;

pub const REPORT_FLOATS: usize = 1024;

// Words of a walk that keeps what it visits: marks from 0, the ids, their distances.
pub fn visited_at(n: usize) -> usize
    requires { n ≤ 65536 }
    ensures { result ≡ visited_at n }
{
    n + 1
}

pub fn visited_dists_at(n: usize) -> usize
    requires { n ≤ 65536 }
    ensures { result ≡ visited_dists_at n }
{
    2 * n + 256
}

// Words of a pool: its ids, its stamps, its distances.
pub fn pool_at(n: usize) -> usize
    requires { n ≤ 65536 }
    ensures { result ≡ pool_at n }
{
    3 * n + 256
}

pub fn stamps_at(n: usize) -> usize
    requires { n ≤ 65536 }
    ensures { result ≡ stamps_at n }
{
    4 * n + 256
}

pub fn pool_dists_at(n: usize) -> usize
    requires { n ≤ 65536 }
    ensures { result ≡ pool_dists_at n }
{
    5 * n + 256
}

pub fn pool_end(n: usize) -> usize
    requires { n ≤ 65536 }
    ensures { result ≡ pool_end n }
{
    6 * n + 256
}

// Words of the merge, behind the marks: heads, seats, links.
pub fn heads_at(n: usize) -> usize
    requires { n ≤ 65536 }
    ensures { result ≡ heads_at n }
{
    n
}

pub fn seats_at(n: usize) -> usize
    requires { n ≤ 65536 }
    ensures { result ≡ seats_at n }
{
    2 * n
}

pub fn links_at(n: usize) -> usize
    requires { n ≤ 65536 }
    ensures { result ≡ links_at n }
{
    3 * n
}

// The fresh rows, and the p-th of them.
pub fn fresh_at(n: usize) -> usize
    requires { n ≤ 65536 }
    ensures { result ≡ fresh_at n }
{
    6 * n + 16384
}

pub fn fresh_row_at(n: usize, p: usize) -> usize
    requires { (n ≤ 65536) × (p < 256) }
    ensures { result ≡ fresh_row_at n p }
{
    6 * n + 16384 + 64 * p
}

// Where the words of a search end, and those of a report.
pub fn search_end(n: usize) -> usize
    requires { n ≤ 65536 }
    ensures { result ≡ search_end n }
{
    n + 512
}

pub fn report_end(n: usize) -> usize
    requires { n ≤ 65536 }
    ensures { result ≡ report_end n }
{
    n + 1024
}

// Where the room of a batch, close or whole build ends, in words and in floats.
pub fn fresh_end(n: usize) -> usize
    requires { n ≤ 65536 }
    ensures { result ≡ fresh_end n }
{
    6 * n + 32768
}

pub fn floats_end(n: usize) -> usize
    requires { n ≤ 65536 }
    ensures { result ≡ floats_end n }
{
    4 * n + 1024
}

// Every word becomes 0.
pub fn clear_words(s: &mut [u32])
    ensures { s.new ≡ replicate (length s.old) 0 }
{
    s.fill(0);
}

// Every float becomes +0.0.
pub fn clear_floats(s: &mut [f32])
    ensures { s.new ≡ replicate (length s.old) (of_bits binary32 0) }
{
    s.fill(0.0);
}

// The first w words and the first f floats become 0; what lies beyond is untouched.
pub fn clear_front(words: &mut [u32], floats: &mut [f32], w: usize, f: usize)
    requires { (w ≤ length words.old) × (f ≤ length floats.old) }
    ensures { FrontClear w f words.old floats.old words.new floats.new }
{
    clear_words(&mut words[..w]);
    clear_floats(&mut floats[..f]);
}

// The room of a batch, close or whole build becomes 0.
pub fn clear_room(n: usize, words: &mut [u32], floats: &mut [f32])
    requires { (n ≤ 65536) × (fresh_end n ≤ length words.old) × (floats_end n ≤ length floats.old) }
    ensures { RoomClear n words.old floats.old words.new floats.new }
{
    let w = fresh_end(n);
    let f = floats_end(n);
    clear_front(words, floats, w, f);
}
