// Part 5, the rounds: which of the candidates become the row, and the writer of the row.
#![tactic(auto)]

ghost use Rattle.std.specs.Prelude.{◌≡◌, ◌+◌, ◌*◌, ◌≤◌, length};
ghost use Rattle.definition.specs.Floats.{larger, smaller};
ghost use Rattle.definition.specs.Metric.{between};
ghost use Rattle.definition.specs.Prune.{target_of, increment, next_alpha, quotient, pruned_from, prune};
ghost use Rattle.whole.specs.Whole.{limit};
ghost use Rattle.metric.specs.Exact.{VectorIn};
ghost use Rattle.laws.specs.Paired.{items_of};
ghost use Rattle.prune_pool.specs.Says.{Distinct};
ghost use Rattle.table.specs.Rows.{Written, Stretched};
ghost use Rattle.prune.specs.Says.{Measurable, shaded_from, Shaded, rounds_of, Taken};

use metric::from_query;
use prune_pool::choose;
use table::{index_of, pad_from};

const MOST_ROUNDS: usize = 9;

// By hand: of two that compare equal `f32::max` may give either, and the definition says which.
fn larger(x: f32, y: f32) -> f32
    ensures { result ≡ larger x y }
{
    if x < y { y } else { x }
}

// By hand: the same of `f32::min`.
fn smaller(x: f32, y: f32) -> f32
    ensures { result ≡ smaller x y }
{
    if y < x { y } else { x }
}

// max(alpha, 1); a NaN acts as 1.
fn target_of(alpha: f32) -> f32
    ensures { result ≡ target_of alpha }
{
    larger(1.0, alpha)
}

// min(target, 1.2)
fn increment_of(target: f32) -> f32
    ensures { result ≡ increment target }
{
    smaller(target, 1.2)
}

// min(current x increment, target)
fn next_alpha(target: f32, current: f32) -> f32
    ensures { result ≡ next_alpha target current }
{
    smaller(current * increment_of(target), target)
}

// The quotient of a candidate's distance by its distance to the taken one: here, and nowhere before, they are floats.
fn quotient_of(dist: u32, apart: u32) -> f32
    requires { (dist ≤ limit) × (apart ≤ limit) }
    ensures { result ≡ quotient dist apart }
{
    if apart == 0 {
        f32::MAX
    } else {
        dist as f32 / apart as f32
    }
}

// Every candidate from place `from` on whose factor isn't above target is shaded by the taken entry, whose vector is `query`.
fn shade_rest(
    vectors: &[u8],
    dim: usize,
    query: &[u8],
    ids: &[u32],
    dists: &[u32],
    factors: &mut [f32],
    from: usize,
    target: f32,
)
    requires measurable { Measurable dim vectors.now ids.now dists.now }
    requires factors_len { (length factors.old ≡ length ids.now) × (from ≤ length ids.now) × (length query.now ≡ dim) }
    ensures { Shaded dim vectors.now query.now ids.now dists.now target from
        factors.old factors.new }
{
    for j in from..ids.len() {
        let factor = factors[j];
        if !(target < factor) {
            let other = index_of(ids[j]);
            let apart = from_query(dim, vectors, query, other);
            factors[j] = larger(factor, quotient_of(dists[j], apart));
        }
    }
}

// The same, for the taken entry by its id: its vector is lent once for all.
fn shade_later(
    vectors: &[u8],
    dim: usize,
    ids: &[u32],
    dists: &[u32],
    factors: &mut [f32],
    from: usize,
    taken: usize,
    target: f32,
)
    requires measurable { Measurable dim vectors.now ids.now dists.now }
    requires factors_len { (length factors.old ≡ length ids.now) × (from ≤ length ids.now) }
    requires vector_in { VectorIn dim vectors.now taken }
    ensures { factors.new
        ≡ shaded_from dim vectors.now ids.now dists.now target taken from factors.old }
{
    let at = taken * dim;
    let end = at + dim;
    shade_rest(
        vectors,
        dim,
        &vectors[at..end],
        ids,
        dists,
        factors,
        from,
        target,
    );
}

// The rounds over the candidates: the ids taken go to the front of the row. Returns how many there are.
fn take_rounds(
    vectors: &[u8],
    dim: usize,
    ids: &[u32],
    dists: &[u32],
    factors: &mut [f32],
    row: &mut [u32],
    degree: usize,
    alpha: f32,
) -> usize
    requires measurable { Measurable dim vectors.now ids.now dists.now }
    requires factors_len { (length factors.old ≡ length ids.now) × (degree ≤ length row.old) }
    ensures { Taken row.new result degree
        (rounds_of dim vectors.now ids.now dists.now degree alpha factors.old) }
{
    let target = target_of(alpha);
    let mut current = 1.0;
    let mut count = 0;
    'rounds: for _ in 0..MOST_ROUNDS {
        for (i, &id) in ids.iter().enumerate() {
            if degree <= count {
                break 'rounds;
            }
            if !(current < factors[i]) {
                row[count] = id;
                count += 1;
                factors[i] = f32::MAX;
                let taken = index_of(id);
                shade_later(vectors, dim, ids, dists, factors, i + 1, taken, target);
            }
        }
        if !(current < target) {
            break;
        }
        current = next_alpha(target, current);
    }
    count
}

// The writer: the row that pruning gives from these candidates, then padding. Returns how many ids there are.
fn write_pruned(
    vectors: &[u8],
    dim: usize,
    ids: &[u32],
    dists: &[u32],
    factors: &mut [f32],
    row: &mut [u32],
    degree: usize,
    alpha: f32,
) -> usize
    requires measurable { Measurable dim vectors.now ids.now dists.now }
    requires factors_len { (length factors.old ≡ length ids.now) × (degree ≤ length row.old) }
    ensures { Written row.new result (length row.old)
        (pruned_from (between dim vectors.now) degree alpha (items_of ids.now dists.now)) }
{
    scratch::clear_floats(factors);
    let count = take_rounds(vectors, dim, ids, dists, factors, row, degree, alpha);
    pad_from(row, count);
    count
}

// Part 5 whole: from a pool of ids, each once, with their distances from the node, to the node's row.
pub fn prune_neighbors(
    vectors: &[u8],
    dim: usize,
    ids: &[u32],
    dists: &[u32],
    node: u32,
    factors: &mut [f32],
    row: &mut [u32],
    degree: usize,
    alpha: f32,
) -> usize
    requires measurable { Measurable dim vectors.now ids.now dists.now }
    requires distinct { Distinct ids.now }
    requires in_bounds { (750 ≤ length factors.old) × (degree ≤ length row.old) }
    ensures { Written row.new result (length row.old)
        (prune (between dim vectors.now) degree alpha node (items_of ids.now dists.now)) }
{
    let mut ci = [0u32; 750];
    let mut cd = [0u32; 750];
    let count = choose(ids, dists, node, &mut ci, &mut cd);
    write_pruned(
        vectors,
        dim,
        &ci[0..count],
        &cd[0..count],
        &mut factors[0..count],
        row,
        degree,
        alpha,
    )
}

// The same, into a row's stretch of a lent table: all other words stay as they are.
pub fn prune_into(
    table: &mut [u32],
    place: usize,
    width: usize,
    vectors: &[u8],
    dim: usize,
    ids: &[u32],
    dists: &[u32],
    node: u32,
    factors: &mut [f32],
    degree: usize,
    alpha: f32,
) -> usize
    requires measurable { Measurable dim vectors.now ids.now dists.now }
    requires distinct { Distinct ids.now }
    requires in_bounds { (750 ≤ length factors.old) × (degree ≤ width) × (place * width + width ≤ length table.old) }
    ensures { Stretched table.old table.new place width result
        (prune (between dim vectors.now) degree alpha node (items_of ids.now dists.now)) }
{
    let at = place * width;
    let end = at + width;
    prune_neighbors(
        vectors,
        dim,
        ids,
        dists,
        node,
        factors,
        &mut table[at..end],
        degree,
        alpha,
    )
}
