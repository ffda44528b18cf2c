// Replays the cases of `stdin`, as crates/test_calls reads them: batches and whole builds, done and refused, with every row of their tables.
#![tactic(auto)]

use std::io;

fn main(rt: HostRuntime) -> io::Result<()> {
    test_calls::replay_input(&rt)
}
