// The program `seek`: reads a search as text from standard input, and prints its answers or the number of its refusal.
#![tactic(auto)]

use std::io;

fn main(rt: HostRuntime) -> io::Result<()> {
    seek_input::answer_input(&rt)
}
