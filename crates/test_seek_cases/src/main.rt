// Answers many texts as `seek` answers one: standard input has them one after the other, each ended by a `/`.
#![tactic(auto)]

use std::io;

fn answer_each(rt: &impl Print, texts: &[u8]) -> io::Result<()> {
    for ended in texts.split_inclusive(|b| *b == b'/') {
        let text = ended.strip_suffix(b"/").unwrap_or(ended);
        seek_input::print_answer(&mut io::writer(rt), text, text.len())?;
    }
    Ok(())
}

fn main(rt: HostRuntime) -> io::Result<()> {
    let mut texts = [0u8; 262144];
    let got = seek_input::read_full(&mut rt.reader(), &mut texts)?;
    answer_each(&rt, &texts[..got])
}
