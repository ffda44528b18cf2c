// A group of seeds.

ghost use Rattle.std.specs.Prelude.{◌≡◌, ◌<◌, ◌≤◌, [], ◌∷◌, length};
ghost use Rattle.definition.specs.Lists.{is_in};
ghost use Rattle.definition.specs.Draws.{first_free, seeds_from};
ghost use Rattle.draws.specs.Says.{Leaves};

use super::numbers::wrapped;
use super::step::{advance, drawn};
use checks_repeats::is_among;

// Whether x is the start or in the group.
pub fn is_taken(x: u32, start: u32, group: &[u32]) -> bool
    ensures { result ≡ is_in x (start ∷ group.now) }
{
    x == start || is_among(x, group)
}

// The first of r, r + 1, .. mod n that is neither the start nor in the group.
// These are distinct, so that one of the first `group.len() + 2` is free, and the loop ends there at the latest: n turns are the definition's bound.
pub fn first_free(n: u32, start: u32, group: &[u32], r: u32) -> u32
    requires { (0 < n) × (n ≤ 65536) × (r < n) }
    ensures { result ≡ first_free n (start ∷ group.now) n r }
{
    let mut x = r;
    for _ in 0..n {
        if !is_taken(x, start, group) {
            return x;
        }
        x = wrapped(x + 1, n);
    }
    x
}

// A group of `extra` seeds, from empty: the state after it.
pub fn fill_seeds(state: u64, n: u32, start: u32, extra: usize, out: &mut [u32]) -> u64
    requires { (0 < n) × (n ≤ 65536) × (extra ≤ length out.old) }
    ensures { Leaves (seeds_from n start extra [] state) out.old result out.new }
{
    let mut s = state;
    for k in 0..extra {
        s = advance(s);
        let r = drawn(n, s);
        let seed = first_free(n, start, &out[..k], r);
        out[k] = seed;
    }
    s
}
