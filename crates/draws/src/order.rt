// An order of the entries.

ghost use Rattle.std.specs.Prelude.{◌≡◌, ◌-◌, ◌<◌, ◌≤◌, length};
ghost use Rattle.definition.specs.Lists.{upto};
ghost use Rattle.definition.specs.Draws.{shuffled};

use super::step::{advance, drawn};

// 0, 1, 2, ..
pub fn count_up(out: &mut [u32])
    requires { length out.old ≤ 65536 }
    ensures { out.new ≡ upto (length out.old) }
{
    for (i, word) in out.iter_mut().enumerate() {
        *word = i as u32;
    }
}

// For i from the last place down to 1: exchange places i and a draw below i + 1. The state after it.
pub fn shuffle(state: u64, out: &mut [u32]) -> u64
    requires { (0 < length out.old) × (length out.old ≤ 65536) }
    ensures { record { words = out.new; state = result } ≡ shuffled (length out.old - 1) out.old state }
{
    let mut s = state;
    for i in (1..out.len()).rev() {
        s = advance(s);
        let below = (i + 1) as u32;
        let j = drawn(below, s) as usize;
        out.swap(i, j);
    }
    s
}
