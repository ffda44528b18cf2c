// Part 8. Medoid: the entry with the least sum of distances to the pivots, the lower id on equality.
#![tactic(auto)]

ghost use Rattle.std.specs.Prelude.{◌≡◌, ℕ, ◌*◌, ◌≤◌, ◌<◌, length, get_or};
ghost use Rattle.definition.specs.Metric.{between};
ghost use Rattle.definition.specs.Medoid.{score, medoid};
ghost use Rattle.definition.specs.Outcome.{medoid_out};

use definition::Answer;

// The distances of entry i to the pivots, added in their order, rounded at each sum.
fn score(n: usize, dim: usize, vectors: &[u8], pivots: &[u32], i: usize) -> f32
    requires { (dim ≤ 256) × (length vectors.now ≡ n * dim) × (i < n) × ((j : ℕ) → j < length pivots.now → get_or pivots.now j 0 < n) }
    ensures { result ≡ score (between dim vectors.now) pivots.now i }
{
    let mut total: f32 = 0.0;
    for p in pivots {
        total += metric::between(dim, vectors, i, *p as usize) as f32;
    }
    total
}

// The entry with the least score: a later one leads only if its score is strictly less.
fn leader(n: usize, dim: usize, vectors: &[u8], pivots: &[u32]) -> usize
    requires { (0 < n) × (dim ≤ 256) × (length vectors.now ≡ n * dim) × ((j : ℕ) → j < length pivots.now → get_or pivots.now j 0 < n) }
    ensures { (result ≡ medoid (between dim vectors.now) pivots.now n) × (result < n) }
{
    let mut id = 0;
    let mut least = score(n, dim, vectors, pivots, 0);
    for i in 1..n {
        let s = score(n, dim, vectors, pivots, i);
        if s < least {
            id = i;
            least = s;
        }
    }
    id
}

// The medoid's id, or the number of the refusal.
pub fn medoid(n: usize, dim: usize, vectors: &[u8], pivots: &[u32]) -> Answer
    ensures { result ≡ medoid_out (record { n = n; dim = dim; vectors = vectors.now; pivots = pivots.now }) }
{
    if let Err(refusal) = checks_number::check_medoid(n, dim, vectors, pivots) {
        return answers::refused_for(refusal);
    }
    let id = leader(n, dim, vectors, pivots);
    answers::chosen(id as u32)
}
