// The program `seek` on a text of 65,536 bytes, the longest that is answered. Its first and its last byte belong to words, so that none may be missing.
#![tactic(auto)]

use std::io;

fn main(rt: HostRuntime) -> io::Result<()> {
    seek_input::answer_input(&rt)
}
