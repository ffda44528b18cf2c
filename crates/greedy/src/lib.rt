// Part 4. The greedy walk from a start over the rows of a flat table of any width; one walk serves search and build. A word of the table that is no entry
// reads as padding, so that a walk asks nothing of its table but the length. Crate kept has work and frontier, crate scratch says where in the words marks
// and visited lie.
#![tactic(auto)]

ghost use Rattle.std.specs.Prelude.{◌≡◌, ◌+◌, ◌≤◌, ◌<◌, length, replicate};
ghost use Rattle.definition.specs.Metric.{from_query};
ghost use Rattle.definition.specs.Tables.{row, cleaned};
ghost use Rattle.definition.specs.Greedy.{expand, steps};
ghost use Rattle.theory.specs.build.Walks.{epoch_end};
ghost use Rattle.scratch.specs.Layout.{widest, pool_at};
ghost use Rattle.beam.specs.Keys.{none};
ghost use Rattle.greedy.specs.Scratch.{Measures, Ground, from_start, walk_of, standing, Ready, Live, Room, Rooms, Keeps, Moves, Ends, Walks};

use kept::Work;

// What a walk goes by: n entries of dim bytes, and rows of width words; and whether it keeps a list of all that it visits.
#[derive(Clone, Copy)]
pub struct Plan {
    pub n: usize,
    pub dim: usize,
    pub width: usize,
    pub beam: usize,
    pub keep: bool,
}

// How many were visited, and what work has.
#[derive(Clone, Copy)]
pub struct Counts {
    pub visited: usize,
    pub work: Work,
}

// What a walk leaves: the epoch, and how many it visited, expanded and kept.
#[derive(Clone, Copy)]
pub struct Walked {
    pub epoch: u32,
    pub visited: usize,
    pub expanded: usize,
    pub work: usize,
}

// New entries with their distances, behind the v visited.
fn keep_each(words: &mut [u32], n: usize, v: usize, ids: &[u32], dists: &[u32])
    requires { (n ≤ 65536) × (pool_at n ≤ length words.old) × (v + length ids.now ≤ n) × (length ids.now ≡ length dists.now) }
    ensures { Keeps n v ids.now dists.now words.old words.new }
{
    let ids_at = scratch::visited_at(n) + v;
    let dists_at = scratch::visited_dists_at(n) + v;
    // By hand: with two `copy_from_slice` a walk took up to a fifth longer, since they fetch in wide loads what was just stored word by word.
    for (j, id) in ids.iter().enumerate() {
        let i = ids_at + j;
        let d = dists_at + j;
        words[i] = *id;
        words[d] = dists[j];
    }
}

// A word of each 64 bytes of a row, read so that they are on their way from memory while other work is done. What is read decides nothing: it goes to `out`,
// since a load whose value goes nowhere is taken away by the compiler.
fn touch_row(row: &[u32], out: &mut [u32])
    requires { length row.now ≤ length out.old }
{
    // By hand: by `step_by(16)` a step takes some forty instructions more.
    let mut k = 0;
    while k < row.len() {
        out[k] = row[k];
        k += 16;
    }
}

// The row that is walked next, as far as work is known, if it lies in the table.
fn touch_next(keys: &[u64], w: Work, table: &[u32], width: usize, out: &mut [u32])
    requires len_in_bounds { (w.len ≤ length keys.now) × (w.done ≤ w.len) }
    requires width_le_widest { (width ≤ widest) × (length out.old ≡ widest) }
{
    if let Some(next) = kept::ahead(keys, w) {
        let from = next as usize * width;
        let to = from + width;
        if to <= table.len() {
            touch_row(&table[from..to], out);
        }
    }
}

// A row: its new ids are marked, then measured, then kept and met, in order. `fresh` and `apart` are room for a row. What is touched goes to `apart` as well:
// the distances go over it, or it lies behind them, where nothing reads it.
fn expand(
    words: &mut [u32],
    keys: &mut [u64],
    fresh: &mut [u32],
    apart: &mut [u32],
    vectors: &[u8],
    query: &[u8],
    row: &[u32],
    p: Plan,
    epoch: u32,
    c: Counts,
) -> Counts
    requires ready { Ready p epoch (standing words.old keys.old c) }
    requires live { Live p epoch (standing words.old keys.old c) }
    requires measures { Measures p.n p.dim vectors.now query.now }
    requires rooms { Rooms row.now fresh.old apart.old }
    ensures { Moves p epoch (standing words.old keys.old c) (standing words.new keys.new result)
        (λ st. expand (from_query p.dim vectors.now query.now) p.beam st (cleaned p.n row.now)) }
{
    let n = p.n;
    let count = marks::gather(words, n as u32, epoch, row, fresh);
    metric::touch_each(p.dim, vectors, &fresh[0..count], &mut apart[0..count]);
    metric::from_query_each(
        p.dim,
        vectors,
        query,
        &fresh[0..count],
        &mut apart[0..count],
    );
    if p.keep {
        keep_each(words, n, c.visited, &fresh[0..count], &apart[0..count]);
    }
    let work = kept::meet(keys, p.beam, c.work, &fresh[0..count], &apart[0..count]);
    let visited = c.visited + count;
    Counts { visited, work }
}

// The row of one entry.
fn step(
    words: &mut [u32],
    keys: &mut [u64],
    fresh: &mut [u32],
    apart: &mut [u32],
    vectors: &[u8],
    query: &[u8],
    table: &[u32],
    p: Plan,
    epoch: u32,
    id: u32,
    c: Counts,
) -> Counts
    requires ready { Ready p epoch (standing words.old keys.old c) }
    requires live { Live p epoch (standing words.old keys.old c) }
    requires ground { Ground p vectors.now query.now table.now }
    requires id_lt_n { (id < p.n) × (length fresh.old ≡ widest) × (length apart.old ≡ widest) }
    ensures { Moves p epoch (standing words.old keys.old c) (standing words.new keys.new result)
        (λ st. expand (from_query p.dim vectors.now query.now) p.beam st
        (row p.width (cleaned p.n table.now) id)) }
{
    let width = p.width;
    let from = id as usize * width;
    let to = from + width;
    touch_next(keys, c.work, table, width, apart);
    expand(
        words,
        keys,
        fresh,
        apart,
        vectors,
        query,
        &table[from..to],
        p,
        epoch,
        c,
    )
}

// What a walk leaves that expanded so many.
fn outcome(epoch: u32, c: Counts, expanded: usize) -> Walked
    ensures { result ≡ record { epoch = epoch; visited = c.visited; expanded = expanded; work = c.work.len } }
{
    Walked {
        epoch,
        visited: c.visited,
        expanded,
        work: c.work.len,
    }
}

// While the frontier has an item to walk: the row of the best. Each turn expands another entry, so that n turns are enough; as many as were made were expanded.
fn walk(
    words: &mut [u32],
    keys: &mut [u64],
    fresh: &mut [u32],
    apart: &mut [u32],
    vectors: &[u8],
    query: &[u8],
    table: &[u32],
    p: Plan,
    epoch: u32,
    c: Counts,
) -> Walked
    requires ready { Ready p epoch (standing words.old keys.old c) }
    requires live { Live p epoch (standing words.old keys.old c) }
    requires ground { Ground p vectors.now query.now table.now }
    requires fresh_len { (length fresh.old ≡ widest) × (length apart.old ≡ widest) }
    ensures { Ends p epoch (standing words.old keys.old c) words.new keys.new result
        (λ st. steps (from_query p.dim vectors.now query.now)
        (row p.width (cleaned p.n table.now)) p.beam p.n st) }
{
    let mut s = c;
    for expanded in 0..p.n {
        let Some(next) = kept::pop(keys, p.beam, s.work) else {
            return outcome(epoch, s, expanded);
        };
        let work = Work {
            done: next.done,
            ..s.work
        };
        let t = Counts { work, ..s };
        s = step(
            words, keys, fresh, apart, vectors, query, table, p, epoch, next.id, t,
        );
    }
    outcome(epoch, s, p.n)
}

// From the start, which is met: with beam 0 work took nothing in, and the start's row is walked all the same.
fn from_start(
    words: &mut [u32],
    keys: &mut [u64],
    fresh: &mut [u32],
    apart: &mut [u32],
    vectors: &[u8],
    query: &[u8],
    table: &[u32],
    p: Plan,
    epoch: u32,
    start: u32,
    c: Counts,
) -> Walked
    requires ready { Ready p epoch (standing words.old keys.old c) }
    requires live { Live p epoch (standing words.old keys.old c) }
    requires ground { Ground p vectors.now query.now table.now }
    requires start_lt_n { (start < p.n) × (length fresh.old ≡ widest) × (length apart.old ≡ widest) }
    ensures { Ends p epoch (standing words.old keys.old c) words.new keys.new result
        (from_start p (from_query p.dim vectors.now query.now) table.now start) }
{
    if p.beam == 0 {
        let s = step(
            words, keys, fresh, apart, vectors, query, table, p, epoch, start, c,
        );
        return outcome(epoch, s, 1);
    }
    walk(
        words, keys, fresh, apart, vectors, query, table, p, epoch, c,
    )
}

// A whole walk, on words that earlier walks used. `keys` is 256 free places, and is left with what work has. The start is met as the one entry of a row.
pub fn greedy(
    words: &mut [u32],
    keys: &mut [u64],
    vectors: &[u8],
    query: &[u8],
    table: &[u32],
    p: Plan,
    epoch: u32,
    start: u32,
) -> Walked
    requires epoch_bound { (epoch + 1 < epoch_end) × Room p epoch words.old }
    requires keys_value { keys.old ≡ replicate 256 none }
    requires ground { Ground p vectors.now query.now table.now }
    requires start_lt_n { start < p.n }
    ensures { Walks p epoch words.old words.new keys.new result
        (walk_of p (from_query p.dim vectors.now query.now) table.now start) }
{
    let mut fresh = [0u32; scratch::WIDEST];
    let mut apart = [0u32; scratch::WIDEST];
    let first = [start];
    let n = p.n;
    let e = marks::next_epoch(epoch);
    words[n] = e;
    let work = kept::empty(p.beam);
    let none = Counts { visited: 0, work };
    let c = expand(
        words, keys, &mut fresh, &mut apart, vectors, query, &first, p, e, none,
    );
    from_start(
        words, keys, &mut fresh, &mut apart, vectors, query, table, p, e, start, c,
    )
}
