// Part 6 whole: a batch, on accepted input and as the public call.
#![tactic(auto)]

ghost use Rattle.definition.specs.Outcome.{BatchMeets};
ghost use Rattle.given.specs.Given.{given};
ghost use Rattle.given.specs.Listing.{listing};
ghost use Rattle.given.specs.Held.{held};
ghost use Rattle.batch.specs.Says.{BatchReady, BatchRun};

use definition::{Answer, Params};
use given::Ground;

// A batch that no check refuses: the fresh rows of all listed nodes from the rows as they are, and only then the merge. The marks of the walks are as the one
// before left them, and the epochs go on: it returns the last. The stamps of the pools begin at 0: a stamp is a node's place in this batch.
pub fn run_batch(
    g: Ground,
    epoch: u32,
    start: u32,
    nodes: &[u32],
    seeds: &[u32],
    wide: &mut [u32],
    words: &mut [u32],
    floats: &mut [f32],
) -> u32
    requires { BatchReady (given g) (listing start nodes.now seeds.now) epoch (held wide.old words.old floats.old) }
    ensures { BatchRun (given g.entry) (listing start nodes.now seeds.now) epoch result
        (held wide.old words.old floats.old)
        (held wide.new words.new floats.new) }
{
    let n = g.n;
    let a = scratch::stamps_at(n);
    let e = scratch::pool_dists_at(n);
    scratch::clear_words(&mut words[a..e]);
    let last = batch_fresh::fresh_rows(g, epoch, start, nodes, seeds, wide, words, floats);
    batch_merge::merge(g, nodes, wide, words, floats);
    last
}

// One batch of the wide table, or the number of the refusal.
pub fn batch(
    n: usize,
    dim: usize,
    vectors: &[u8],
    params: Params,
    start: u32,
    nodes: &[u32],
    seeds: &[u32],
    wide: &mut [u32],
    words: &mut [u32],
    floats: &mut [f32],
) -> Answer
    ensures { BatchMeets
        (record {
          n = n;
          dim = dim;
          vectors = vectors.now;
          params = params;
          start = start;
          nodes = nodes.now;
          seeds = seeds.now;
          wide = wide.old;
          words = words.old;
          floats = floats.old;
        })
        (record { answer = result; wide = wide.new; words = words.new; floats = floats.new }) }
{
    if let Err(refusal) = checks_number::check_batch(
        n,
        dim,
        vectors,
        params,
        start,
        nodes,
        seeds,
        wide,
        words.len(),
        floats.len(),
    ) {
        return answers::refused_for(refusal);
    }
    let slack = table::slack(params.degree);
    let g = Ground {
        n,
        dim,
        slack,
        params,
        vectors,
    };
    let epoch = marks::first_epoch(words, n);
    run_batch(g, epoch, start, nodes, seeds, wide, words, floats);
    scratch::clear_room(n, words, floats);
    answers::done()
}
