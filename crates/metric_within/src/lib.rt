// Part 1. A distance that is worked out only as far as is needed: where a quarter of the samples alone are too far, the others are not read.
#![tactic(auto)]

ghost use Rattle.std.specs.Prelude.{◌≡◌, ◌≤◌, length};
ghost use Rattle.definition.specs.Metric.{metric, from_query};
ghost use Rattle.metric.specs.Exact.{VectorIn};
ghost use Rattle.metric_within.specs.Within.{Within};

// The distance of two vectors of one length, or, where the first quarter of the samples alone is above `most`, what that quarter adds. A quarter is whole
// sixteens, rounded up, as they are summed.
fn summed_within(a: &[u8], b: &[u8], most: u32) -> u32
    requires { (length a.now ≡ length b.now) × (length a.now ≤ 256) }
    ensures { Within most (metric a.now b.now) result }
{
    let first = (a.len() + 48) / 64 * 16;
    let near = metric::stretch(a, b, 0, first);
    if most < near {
        return near;
    }
    near + metric::stretch(a, b, first, a.len())
}

// The distance from a query to entry i of the flat vectors, as far as that.
pub fn from_query_within(dim: usize, vectors: &[u8], query: &[u8], i: usize, most: u32) -> u32
    requires vector_in { VectorIn dim vectors.now i }
    requires query_len { (length query.now ≡ dim) × (dim ≤ 256) }
    ensures { Within most (from_query dim vectors.now query.now i) result }
{
    let at = i * dim;
    let end = at + dim;
    summed_within(query, &vectors[at..end], most)
}
