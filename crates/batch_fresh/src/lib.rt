// Part 6, the fresh rows: for each listed node its pool, and the row pruned from it, within the two slices of scratch.
#![tactic(auto)]

ghost use Rattle.std.specs.Prelude.{◌≡◌, ◌+◌, ◌≤◌, ◌<◌, length};
ghost use Rattle.scratch.specs.Layout.{most_factors};
ghost use Rattle.scratch.specs.Lent.{lent};
ghost use Rattle.given.specs.Given.{given, WalkLimits, Wide};
ghost use Rattle.given.specs.Listing.{listing, walks_of, Listable};
ghost use Rattle.theory.specs.Metric.{Bytes};
ghost use Rattle.theory.specs.build.Walks.{epoch_after, epoch_end};
ghost use Rattle.marks.specs.Marked.{Marks};
ghost use Rattle.batch_fresh.specs.Made.{Between, insertion, Insertable, walks_for, NodePool, RowMade, FreshRows};
ghost use Rattle.batch_fresh.specs.Says.{Prunable, pruned_for, Fresh};

use batch_pool::{Collected, collect_pool};
use given::Ground;
use greedy::Plan;
use prune::prune_neighbors;
use table::put_row;

// The fresh row at `place`, pruned from the pool of a node, which has len ids. The words are lent for the pool while the row is made, so it is made beside them
// and put down after. Pruning is called here as it is in crate prune_fit, so that its arrays stand in no frame from which it is called again.
fn prune_fresh(
    g: Ground,
    place: usize,
    node: u32,
    len: usize,
    words: &mut [u32],
    floats: &mut [f32],
)
    requires { Prunable (given g) place len (lent words.old floats.old) }
    ensures { Fresh g.entry.n place (pruned_for (given g.entry) node len words.old)
        (lent words.old floats.old) (lent words.new floats.new) }
{
    let mut row = [0u32; scratch::FRESH_WIDTH];
    let pool = scratch::pool_at(g.n);
    let pool_end = pool + len;
    let dists = scratch::pool_dists_at(g.n);
    let dists_end = dists + len;
    prune_neighbors(
        g.vectors,
        g.dim,
        &words[pool..pool_end],
        &words[dists..dists_end],
        node,
        &mut floats[0..scratch::FACTORS],
        &mut row,
        g.params.degree,
        g.params.alpha,
    );
    let at = scratch::fresh_row_at(g.n, place);
    let end = at + scratch::FRESH_WIDTH;
    put_row(&mut words[at..end], 0, scratch::FRESH_WIDTH, &row);
}

// The pool of one listed node, the p-th: its vector is the query, and its stamp is one more than p.
fn node_pool(
    g: Ground,
    epoch: u32,
    p: usize,
    node: usize,
    start: u32,
    seeds: &[u32],
    wide: &[u32],
    words: &mut [u32],
) -> Collected
    requires walk_limits { WalkLimits (given g) }
    requires wide { Wide (given g) wide.now }
    requires between { Between (given g) epoch p words.old }
    requires insertable { Insertable (given g) (insertion p node start seeds.now) }
    requires seeds_bound { epoch_after epoch (walks_for wide.now (insertion p node start seeds.now)) < epoch_end }
    ensures node_pool { NodePool (given g.entry) wide.now (insertion p node start seeds.now)
        words.old words.new result }
    ensures epoch_value { result.epoch ≡ epoch_after epoch (walks_for wide.now (insertion p node start seeds.now)) }
{
    let plan = Plan {
        n: g.n,
        dim: g.dim,
        width: g.slack,
        beam: g.params.beam,
        keep: true,
    };
    let stamp = (p + 1) as u32;
    collect_pool(
        words,
        g.vectors,
        g.vector(node),
        wide,
        plan,
        epoch,
        stamp,
        node,
        start,
        seeds,
    )
}

// No code: it says that the vectors are bytes, which a proof knows of a parameter that is a slice, and not of a slice within a struct.
fn are_bytes(vectors: &[u8])
    ensures { Bytes vectors.now }
{}

// The fresh row of one listed node, the p-th, from the wide rows. Returns the epoch of the last walk.
fn fresh_row(
    g: Ground,
    epoch: u32,
    p: usize,
    node: u32,
    start: u32,
    seeds: &[u32],
    wide: &[u32],
    words: &mut [u32],
    floats: &mut [f32],
) -> u32
    requires walk_limits { WalkLimits (given g) }
    requires wide { Wide (given g) wide.now }
    requires between { Between (given g) epoch p words.old }
    requires most_factors_in_bounds { most_factors ≤ length floats.old }
    requires insertable { Insertable (given g) (insertion p node start seeds.now) }
    requires seeds_bound { epoch_after epoch (walks_for wide.now (insertion p node start seeds.now)) < epoch_end }
    ensures row_made { RowMade (given g.entry) wide.now (insertion p node start seeds.now)
        (lent words.old floats.old) (lent words.new floats.new) }
    ensures between_2 { Between (given g.entry) result (p + 1) words.new }
    ensures value { result ≡ epoch_after epoch (walks_for wide.now (insertion p node start seeds.now)) }
{
    are_bytes(g.vectors);
    let u = node as usize;
    let c = node_pool(g, epoch, p, u, start, seeds, wide, words);
    prune_fresh(g, p, node, c.len, words, floats);
    c.epoch
}

// The fresh rows of all listed nodes, one after another, all from the wide rows as they are. Returns the epoch that their walks come to.
pub fn fresh_rows(
    g: Ground,
    epoch: u32,
    start: u32,
    nodes: &[u32],
    seeds: &[u32],
    wide: &[u32],
    words: &mut [u32],
    floats: &mut [f32],
) -> u32
    requires walk_limits { WalkLimits (given g) }
    requires wide { Wide (given g) wide.now }
    requires listable { Listable (given g) (listing start nodes.now seeds.now) }
    requires between { Between (given g) epoch 0 words.old }
    requires most_factors_in_bounds { most_factors ≤ length floats.old }
    requires seeds_bound { epoch_after epoch (walks_of (given g) wide.now (listing start nodes.now seeds.now)) < epoch_end }
    ensures fresh_rows { FreshRows (given g.entry) wide.now (listing start nodes.now seeds.now)
        (lent words.old floats.old) (lent words.new floats.new) }
    ensures marks { Marks g.entry.n words.new result }
    ensures value { result ≡ epoch_after epoch
        (walks_of (given g.entry) wide.now (listing start nodes.now seeds.now)) }
{
    let extra = g.params.extra;
    let mut last = epoch;
    // By hand: the groups of seeds are no `chunks_exact(extra)`, whose size may not be 0, as `extra` may.
    for (p, &node) in nodes.iter().enumerate() {
        let a = p * extra;
        let e = a + extra;
        last = fresh_row(g, last, p, node, start, &seeds[a..e], wide, words, floats);
    }
    last
}
