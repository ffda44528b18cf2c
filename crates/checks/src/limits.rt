// Tests of numbers and lengths: no loop.

ghost use Rattle.std.specs.Prelude.{◌≡◌, ◌≤◌};
ghost use Rattle.definition.specs.Refusals.{bad_dim, bad_count, bad_vectors, bad_degree, bad_beam, bad_alpha, bad_start, bad_extra};
ghost use Rattle.definition.specs.Slack.{slack};
ghost use Rattle.checks.specs.Lengths.{wrong_length};

use table::slack;

// 1
pub fn bad_dim(dim: usize) -> bool
    ensures { result ≡ bad_dim dim }
{
    dim == 0 || 256 < dim
}

// 2, n alone
pub fn bad_count(n: usize) -> bool
    ensures { result ≡ bad_count n }
{
    n == 0 || 65536 < n
}

// 2, with the vectors
pub fn bad_vectors(n: usize, dim: usize, vectors: &[u8]) -> bool
    requires { dim ≤ 256 }
    ensures { result ≡ bad_vectors n dim vectors.now }
{
    bad_count(n) || vectors.len() != n * dim
}

// 3
pub fn bad_degree(degree: usize) -> bool
    ensures { result ≡ bad_degree degree }
{
    degree == 0 || 64 < degree
}

// 4
pub fn bad_beam(beam: usize) -> bool
    ensures { result ≡ bad_beam beam }
{
    256 < beam
}

// 5: NaN is not above 4.0
pub fn bad_alpha(alpha: f32) -> bool
    ensures { result ≡ bad_alpha alpha }
{
    4.0 < alpha
}

// 6
pub fn bad_start(n: usize, start: u32) -> bool
    ensures { result ≡ bad_start n start }
{
    n <= start as usize
}

// 7, the limits on extra seeds alone
pub fn bad_extra(n: usize, extra: usize) -> bool
    ensures { result ≡ bad_extra n extra }
{
    16 < extra || n <= extra
}

// 8, the length alone, of a table whose rows have `width` words
pub fn bad_length(n: usize, width: usize, length: usize) -> bool
    requires { (n ≤ 65536) × (width ≤ 128) }
    ensures { result ≡ wrong_length n width length }
{
    length != n * width
}

// 8, the length alone, of a wide table
pub fn bad_wide_length(n: usize, degree: usize, length: usize) -> bool
    requires { (n ≤ 65536) × (degree ≤ 64) }
    ensures { result ≡ wrong_length n (slack degree) length }
{
    bad_length(n, slack(degree), length)
}
