// Pivots.

ghost use Rattle.std.specs.Prelude.{◌≤◌, length};
ghost use Rattle.definition.specs.Draws.{draws_below};
ghost use Rattle.draws.specs.Says.{Leaves};

use super::step::{advance, drawn};

// `many` draws below n: the state after them.
pub fn fill_draws(state: u64, n: u32, many: usize, out: &mut [u32]) -> u64
    requires { many ≤ length out.old }
    ensures { Leaves (draws_below n many state) out.old result out.new }
{
    let mut s = state;
    for word in &mut out[..many] {
        s = advance(s);
        *word = drawn(n, s);
    }
    s
}
