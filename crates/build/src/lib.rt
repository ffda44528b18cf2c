// Part 7, the public calls: open, close and the whole build.
#![tactic(auto)]

ghost use Rattle.definition.specs.Outcome.{OpenMeets, CloseMeets, BuildMeets};
ghost use Rattle.given.specs.Given.{given};
ghost use Rattle.given.specs.Listing.{listing};
ghost use Rattle.given.specs.Held.{held};
ghost use Rattle.build.specs.Runs.{RunsReady, RunsDone};

use definition::{Answer, Params};
use given::Ground;

// Opening rows copied to wide ones, or the number of the refusal.
pub fn open(n: usize, degree: usize, opening: &[u32], wide: &mut [u32]) -> Answer
    ensures { OpenMeets
        (record { n = n; degree = degree; opening = opening.now; wide = wide.old })
        (record { answer = result; wide = wide.new }) }
{
    if let Err(refusal) = checks_number::check_open(n, degree, opening, wide.len()) {
        return answers::refused_for(refusal);
    }
    let slack = table::slack(degree);
    build_rows::open_rows(n, degree, slack, opening, wide);
    answers::done()
}

// Each row longer than the degree pruned into the closed table, the others copied; or the number of the refusal.
pub fn close(
    n: usize,
    dim: usize,
    vectors: &[u8],
    params: Params,
    wide: &[u32],
    closed: &mut [u32],
    words: &mut [u32],
    floats: &mut [f32],
) -> Answer
    ensures { CloseMeets
        (record {
          n = n;
          dim = dim;
          vectors = vectors.now;
          params = params;
          wide = wide.now;
          closed = closed.old;
          words = words.old;
          floats = floats.old;
        })
        (record { answer = result; closed = closed.new; words = words.new; floats = floats.new }) }
{
    if let Err(refusal) = checks_number::check_close(
        n,
        dim,
        vectors,
        params,
        wide,
        closed.len(),
        words.len(),
        floats.len(),
    ) {
        return answers::refused_for(refusal);
    }
    let width = table::slack(params.degree);
    let g = Ground {
        n,
        dim,
        slack: width,
        params,
        vectors,
    };
    build_rows::close_rows(g, wide, closed, &mut floats[0..scratch::FACTORS]);
    scratch::clear_room(n, words, floats);
    answers::done()
}

// The order in runs of 256, each a batch with as many groups of seeds. The marks are cleared once, and the epochs go on from run to run: it
// returns the last.
fn run_batches(
    g: Ground,
    start: u32,
    order: &[u32],
    seeds: &[u32],
    wide: &mut [u32],
    words: &mut [u32],
    floats: &mut [f32],
) -> u32
    requires { RunsReady (given g) (listing start order.now seeds.now) (held wide.old words.old floats.old) }
    ensures { RunsDone (given g.entry) (listing start order.now seeds.now) result
        (held wide.old words.old floats.old)
        (held wide.new words.new floats.new) }
{
    let mut epoch = marks::first_epoch(words, g.n);
    let mut left = seeds;
    for run in order.chunks(256) {
        let (groups, rest) = left.split_at(run.len() * g.params.extra);
        epoch = batch::run_batch(g, epoch, start, run, groups, wide, words, floats);
        left = rest;
    }
    epoch
}

// The whole build: open, the order in runs of 256, close; or the number of the refusal.
pub fn build(
    n: usize,
    dim: usize,
    vectors: &[u8],
    params: Params,
    start: u32,
    order: &[u32],
    seeds: &[u32],
    opening: &[u32],
    wide: &mut [u32],
    closed: &mut [u32],
    words: &mut [u32],
    floats: &mut [f32],
) -> Answer
    ensures { BuildMeets
        (record {
          n = n;
          dim = dim;
          vectors = vectors.now;
          params = params;
          start = start;
          order = order.now;
          seeds = seeds.now;
          opening = opening.now;
          wide = wide.old;
          closed = closed.old;
          words = words.old;
          floats = floats.old;
        })
        (record { answer = result; wide = wide.new; closed = closed.new; words = words.new; floats = floats.new }) }
{
    if let Err(refusal) = checks_number::check_build(
        n,
        dim,
        vectors,
        params,
        start,
        order,
        seeds,
        opening,
        wide.len(),
        closed.len(),
        words.len(),
        floats.len(),
    ) {
        return answers::refused_for(refusal);
    }
    let slack = table::slack(params.degree);
    build_rows::open_rows(n, params.degree, slack, opening, wide);
    let g = Ground {
        n,
        dim,
        slack,
        params,
        vectors,
    };
    run_batches(g, start, order, seeds, wide, words, floats);
    build_rows::close_rows(g, wide, closed, &mut floats[0..scratch::FACTORS]);
    scratch::clear_room(n, words, floats);
    answers::done()
}
