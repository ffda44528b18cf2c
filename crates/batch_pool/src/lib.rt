// Part 6, the pool of one node: its row, and all visited by one walk from the start and one from each of its seeds, once per id.
#![tactic(auto)]

ghost use Rattle.std.specs.Prelude.{◌≡◌, [], ◌∷◌, map, ◌+◌, ◌≤◌, ◌<◌, length};
ghost use Rattle.definition.specs.Metric.{from_query};
ghost use Rattle.definition.specs.Lists.{joined};
ghost use Rattle.definition.specs.Tables.{ids};
ghost use Rattle.laws.specs.Words.{Searchable, Below};
ghost use Rattle.theory.specs.build.Walks.{node_walks, epoch_after, epoch_end};
ghost use Rattle.scratch.specs.Layout.{pool_end};
ghost use Rattle.greedy.specs.Scratch.{Measures};
ghost use Rattle.batch_pool.specs.Pooled.{pool_as, Pooled, Added};
ghost use Rattle.batch_pool.specs.Regions.{Walkable, stage, pool_of, SeenBelow, Filled, Holding, Grown, visits, pooled_ids};

use greedy::Plan;

// One id with its distance, unless its mark is the stamp. The ids stand in front, the marks of the n entries from n on, the distances from 2n on.
fn add_once(pool: &mut [u32], n: usize, stamp: u32, len: usize, id: u32, dist: u32) -> usize
    requires pooled { Pooled n (pool_as pool.old stamp len) }
    requires n_bound { (n ≤ 65536) × (id < n) }
    ensures { Added n (pool_as pool.old stamp len) (pool_as pool.new stamp result) (id ∷ []) (λ d. dist ≡ d id) }
{
    let i = id as usize;
    let mark = n + i;
    if pool[mark] == stamp {
        return len;
    }
    let at = 2 * n + len;
    pool[mark] = stamp;
    pool[len] = id;
    pool[at] = dist;
    len + 1
}

// The ids of a row, with their distances.
fn add_row(
    pool: &mut [u32],
    n: usize,
    stamp: u32,
    row: &[u32],
    dim: usize,
    vectors: &[u8],
    query: &[u8],
) -> usize
    requires pooled { Pooled n (pool_as pool.old stamp 0) }
    requires n_bound { n ≤ 65536 }
    requires measures { Measures n dim vectors.now query.now }
    requires searchable { Searchable n row.now }
    ensures { Added n (pool_as pool.old stamp 0) (pool_as pool.new stamp result)
        (ids row.now) (λ d. d ≡ from_query dim vectors.now query.now) }
{
    let mut len = 0;
    for &id in row {
        if id != table::PADDING {
            let dist = metric::from_query(dim, vectors, query, id as usize);
            len = add_once(pool, n, stamp, len, id, dist);
        }
    }
    len
}

// All that a walk visited: it left their ids and distances in the words. The pool's region is that of crate scratch: its ids, its marks, its distances.
fn add_visited(words: &mut [u32], n: usize, visited: usize, stamp: u32, len: usize) -> usize
    requires pooled { Pooled n (pool_of n (stage words.old stamp len)) }
    requires n_bound { (n ≤ 65536) × (pool_end n ≤ length words.old) × (visited ≤ n) }
    requires seen_below { SeenBelow n words.old visited }
    ensures { Filled n (stage words.old stamp len) (stage words.new stamp result) visited }
{
    let ids_at = scratch::visited_at(n);
    let dists_at = scratch::visited_dists_at(n);
    let pool_at = scratch::pool_at(n);
    let pool_end = scratch::pool_end(n);
    let mut more = len;
    for k in 0..visited {
        let at = ids_at + k;
        let id = words[at];
        let dist_at = dists_at + k;
        let dist = words[dist_at];
        more = add_once(&mut words[pool_at..pool_end], n, stamp, more, id, dist);
    }
    more
}

// What a walk leaves of the pool: the walk's epoch, and how many ids the pool has.
#[derive(Clone, Copy)]
pub struct Collected {
    pub epoch: u32,
    pub len: usize,
}

// All visited by one walk.
fn add_walk(
    words: &mut [u32],
    vectors: &[u8],
    query: &[u8],
    wide: &[u32],
    p: Plan,
    epoch: u32,
    stamp: u32,
    len: usize,
    start: u32,
) -> Collected
    requires walkable { Walkable p vectors.now query.now wide.now }
    requires epoch_bound { (epoch + 1 < epoch_end) × Holding p epoch (stage words.old stamp len) }
    requires start_lt_n { start < p.n }
    ensures grown { Grown p result.epoch (stage words.old stamp len) (stage words.new stamp result.len)
        (visits p (from_query p.dim vectors.now query.now) wide.now start)
        (from_query p.dim vectors.now query.now) }
    ensures epoch_value { result.epoch ≡ epoch + 1 }
{
    let mut keys = [beam::NONE; 256];
    let s = greedy::greedy(words, &mut keys, vectors, query, wide, p, epoch, start);
    let more = add_visited(words, p.n, s.visited, stamp, len);
    Collected {
        epoch: s.epoch,
        len: more,
    }
}

// All visited by a walk from each of the seeds.
fn add_walks(
    words: &mut [u32],
    vectors: &[u8],
    query: &[u8],
    wide: &[u32],
    p: Plan,
    stamp: u32,
    seeds: &[u32],
    c: Collected,
) -> Collected
    requires walkable { Walkable p vectors.now query.now wide.now }
    requires seeds_bound { (c.epoch + length seeds.now < epoch_end) × Holding p c.epoch (stage words.old stamp c.len) }
    requires below { Below p.n seeds.now }
    ensures grown { Grown p result.epoch (stage words.old stamp c.len) (stage words.new stamp result.len)
        (joined (map (visits p (from_query p.dim vectors.now query.now) wide.now) seeds.now))
        (from_query p.dim vectors.now query.now) }
    ensures epoch_value { result.epoch ≡ c.epoch + length seeds.now }
{
    let mut s = c;
    for &seed in seeds {
        s = add_walk(words, vectors, query, wide, p, s.epoch, stamp, s.len, seed);
    }
    s
}

// The pool of a node, whose vector is the query: its row, then all visited from the start and from each of its seeds.
pub fn collect_pool(
    words: &mut [u32],
    vectors: &[u8],
    query: &[u8],
    wide: &[u32],
    p: Plan,
    epoch: u32,
    stamp: u32,
    node: usize,
    start: u32,
    seeds: &[u32],
) -> Collected
    requires walkable { Walkable p vectors.now query.now wide.now }
    requires seeds_bound { (epoch_after epoch (node_walks wide.now start node seeds.now) < epoch_end) × Holding p epoch (stage words.old stamp 0) }
    requires node_lt_n { (node < p.n) × (start < p.n) × Below p.n seeds.now }
    ensures grown { Grown p result.epoch (stage words.old stamp 0) (stage words.new stamp result.len)
        (pooled_ids p (from_query p.dim vectors.now query.now) wide.now node start seeds.now)
        (from_query p.dim vectors.now query.now) }
    ensures epoch_value { result.epoch ≡ epoch_after epoch (node_walks wide.now start node seeds.now) }
{
    let n = p.n;
    let width = p.width;
    let pool_at = scratch::pool_at(n);
    let pool_end = scratch::pool_end(n);
    let at = node * width;
    let end = at + width;
    let len = add_row(
        &mut words[pool_at..pool_end],
        n,
        stamp,
        &wide[at..end],
        p.dim,
        vectors,
        query,
    );
    let c = add_walk(words, vectors, query, wide, p, epoch, stamp, len, start);
    add_walks(words, vectors, query, wide, p, stamp, seeds, c)
}
