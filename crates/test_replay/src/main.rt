// Replays the cases of `stdin`, as crates/test_calls reads them. oracle/list makes it, and from 000's answers alone the lines that must come.
#![tactic(auto)]

use std::io;

fn main(rt: HostRuntime) -> io::Result<()> {
    test_calls::replay_input(&rt)
}
