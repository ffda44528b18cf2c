// Part 1, with 5/13's rule. The distance of two vectors: the sum of squared byte differences, a whole number. A sample that is 255 in either adds nothing.
#![tactic(auto)]

ghost use Rattle.std.specs.Prelude.{◌≡◌, cond, ℕ, ◌+◌, ◌-◌, ◌*◌, ◌%◌, ◌<◌, ◌≤◌, min, max, length, get_or, drop};
ghost use Rattle.definition.specs.Lists.{total};
ghost use Rattle.definition.specs.Metric.{saturated, squared, metric, from_query, between};
ghost use Rattle.definition.specs.Outcome.{distance_out};
ghost use Rattle.whole.specs.Whole.{farthest};
ghost use Rattle.metric.specs.Exact.{Exact, VectorIn, Distances};
ghost use Rattle.metric.specs.Stretches.{Stretch, Adds, Sixteen};

use definition::{Answer, Refusal};

// What the higher of two samples is measured from: the lower, or 255 where it is that itself, so that it adds nothing.
fn ground(high: u8, low: u8) -> u8
    ensures { result ≡ cond (saturated high) 255 low }
{
    if high == 255 {
        return 255;
    }
    low
}

// What two samples add to a distance. All but the last step is on bytes, so that sixteen of them go into one instruction.
fn squared(x: u8, y: u8) -> u32
    ensures { result ≡ squared x y }
{
    let high = x.max(y);
    let low = x.min(y);
    let gap = high - ground(high, low);
    u32::from(gap) * u32::from(gap)
}

// The same of a sample that is looked at by itself. There the processor can choose between numbers of 32 bits, but between bytes only by a branch.
fn squared_alone(x: u8, y: u8) -> u32
    ensures { result ≡ squared x y }
{
    let high = u32::from(x.max(y));
    let gap = high - u32::from(x.min(y));
    if high == 255u32 {
        return 0;
    }
    gap * gap
}

// Sixteen samples from `at` on, each added to a sum of its own: the sixteen sums stay in registers, and are added up once a stretch.
fn add_sixteen(sums: &mut [u32; 16], a: &[u8], b: &[u8], at: usize)
    requires stretch { Stretch a.now b.now at (at + 16) }
    requires sums_len { (length sums.old ≡ 16) × (total sums.old + metric (drop at a.now) (drop at b.now) ≤ farthest) }
    ensures { Sixteen a.now b.now (at + 16)
        (total sums.old + metric (drop at a.now) (drop at b.now)) sums.new }
{
    for j in 0..16 {
        let k = at + j;
        sums[j] += squared(a[k], b[k]);
    }
}

// What the samples from `from` up to `to` add, sixteen at a time. No turn goes beyond `to` as it is; with `min` the compiler does not see how many turns
// there are. Where it sees that, it takes samples sixteen places apart into one register, and fetches them one by one.
fn sixteens(a: &[u8], b: &[u8], from: usize, to: usize) -> u32
    requires stretch { Stretch a.now b.now from to }
    requires from_value { (to - from) % 16 ≡ 0 }
    ensures { Adds a.now b.now from to result }
{
    let mut sums = [0u32; 16];
    let mut i = from;
    while i < to {
        add_sixteen(&mut sums, a, b, i);
        i = (i + 16).min(to);
    }
    sums.iter().sum()
}

// What eight samples from `at` on add.
fn eight(a: &[u8], b: &[u8], at: usize) -> u32
    requires { Stretch a.now b.now at (at + 8) }
    ensures { Adds a.now b.now at (at + 8) result }
{
    let mut sum: u32 = 0;
    for j in 0..8 {
        let k = at + j;
        sum += squared(a[k], b[k]);
    }
    sum
}

// What the samples from `from` up to `to` add, one by one.
fn few(a: &[u8], b: &[u8], from: usize, to: usize) -> u32
    requires { Stretch a.now b.now from to }
    ensures { Adds a.now b.now from to result }
{
    let mut sum: u32 = 0;
    for i in from..to {
        sum += squared_alone(a[i], b[i]);
    }
    sum
}

// What fewer than sixteen add: eight of them at once, if there are so many.
fn rest(a: &[u8], b: &[u8], from: usize, to: usize) -> u32
    requires { Stretch a.now b.now from to }
    ensures { Adds a.now b.now from to result }
{
    if to - from < 8 {
        return few(a, b, from, to);
    }
    let middle = from + 8;
    eight(a, b, from) + few(a, b, middle, to)
}

// What the samples from `from` up to `to` add to the distance of two vectors. Where there is no rest, as with the tower's 64, what the sixteens add is
// returned as it is: were it always added to something, the compiler, where it has both in one function, would not keep the sixteen sums together.
pub fn stretch(a: &[u8], b: &[u8], from: usize, to: usize) -> u32
    requires { Stretch a.now b.now from to }
    ensures { Adds a.now b.now from to result }
{
    let end = to - (to - from) % 16;
    let most = sixteens(a, b, from, end);
    if end == to {
        return most;
    }
    most + rest(a, b, end, to)
}

// The distance of two vectors of one length.
fn summed(a: &[u8], b: &[u8]) -> u32
    requires { (length a.now ≡ length b.now) × (length a.now ≤ 256) }
    ensures { Exact (metric a.now b.now) result }
{
    stretch(a, b, 0, a.len())
}

// The distance of two vectors, or the number of the refusal.
pub fn distance(a: &[u8], b: &[u8]) -> Answer
    ensures { result ≡ distance_out (record { first = a.now; second = b.now }) }
{
    let dim = a.len();
    if dim == 0 || 256 < dim {
        return answers::refused_for(Refusal::Dimension);
    }
    if dim != b.len() {
        return answers::refused_for(Refusal::Query);
    }
    answers::measured(summed(a, b) as f32)
}

// The distance from a query to entry i of the flat vectors.
pub fn from_query(dim: usize, vectors: &[u8], query: &[u8], i: usize) -> u32
    requires vector_in { VectorIn dim vectors.now i }
    requires query_len { (length query.now ≡ dim) × (dim ≤ 256) }
    ensures { Exact (from_query dim vectors.now query.now i) result }
{
    let at = i * dim;
    let end = at + dim;
    summed(query, &vectors[at..end])
}

// The distance from a query to each of some entries. None waits for another, so that the vectors come from memory side by side.
pub fn from_query_each(dim: usize, vectors: &[u8], query: &[u8], ids: &[u32], dists: &mut [u32])
    requires by_index { (j : ℕ) → j < length ids.now → VectorIn dim vectors.now (get_or ids.now j 0) }
    requires query_len { (length query.now ≡ dim) × (dim ≤ 256) }
    requires ids_len { length ids.now ≡ length dists.old }
    ensures { Distances (from_query dim vectors.now query.now) ids.now dists.new }
{
    for (k, id) in ids.iter().enumerate() {
        dists[k] = from_query(dim, vectors, query, *id as usize);
    }
}

// The first and the last sample of each of some entries, read so that their vectors are on their way from memory while other work is done. What is read
// decides nothing. It goes to `out`, since a load whose value goes nowhere is taken away by the compiler.
pub fn touch_each(dim: usize, vectors: &[u8], ids: &[u32], out: &mut [u32])
    requires by_index { (j : ℕ) → j < length ids.now → VectorIn dim vectors.now (get_or ids.now j 0) }
    requires ids_len { length ids.now ≡ length out.old }
{
    if dim == 0 {
        return;
    }
    for (j, id) in ids.iter().enumerate() {
        let first = *id as usize * dim;
        let last = first + dim - 1;
        out[j] = u32::from(vectors[first]) + u32::from(vectors[last]);
    }
}

// The distance between entries i and j.
pub fn between(dim: usize, vectors: &[u8], i: usize, j: usize) -> u32
    requires vector_in { VectorIn dim vectors.now i }
    requires vector_in_2 { VectorIn dim vectors.now j }
    requires dim_bound { dim ≤ 256 }
    ensures { Exact (between dim vectors.now i j) result }
{
    let at = i * dim;
    let end = at + dim;
    from_query(dim, vectors, &vectors[at..end], j)
}
