// The program `seek` on a text of 65,537 bytes, which is refused with 13: that of test_seek_longest, and one space.
#![tactic(auto)]

use std::io;

fn main(rt: HostRuntime) -> io::Result<()> {
    seek_input::answer_input(&rt)
}
