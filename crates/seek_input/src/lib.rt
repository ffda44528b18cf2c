// `seek` from standard input to standard output.
// No contract can say that the bytes read are those of standard input, or that the bytes handed to `write` arrive: of a read or write of those it is only
// assumed how many bytes a call may move. What can be said is said, of any reader whose bytes are known and any writer that tells what it holds: that the
// buffer cuts no text that is answered, and that what is written is `seek` of all that was there to read. That the reads of the program end only where its
// input does, and that its answer arrives, is seen by running it: seek, seek_longest, seek_longer.
// A read or write that fails ends the work with its error: half a text is not answered.
#![tactic(auto)]

ghost use Rattle.std.specs.Prelude.{◌≡◌, ◌≤◌, ◌<◌, length, take, IfSome, IfOk, OnOk};
ghost use Rattle.std.specs.Io.KnownBytes.{Appends, Consumes, IsAtEnd};
ghost use Rattle.definition.specs.Seek.{most_input, seek};
ghost use Rattle.seek_input.specs.Streams.{IsFront, TextRead};

use std::io;
use std::io::{Read, Write};

// Reads until `text` is full or the input ends, and tells how many bytes it put at the start of `text`.
pub fn read_full<R: Read>(from: &mut R, text: &mut [u8]) -> io::Result<usize>
    ensures front { IfOk result (λ count. IsFront count text.new) }
    ensures bytes { IfOk result (λ count. Consumes (R.remaining from.old) (R.remaining from.new) (take count text.new)) }
    ensures end { IfOk result (λ count. count < length text.new → IsAtEnd (R.remaining from.new)) }
{
    let mut done = 0;
    while done < text.len() {
        let got = from.read(&mut text[done..])?;
        if got == 0 {
            return Ok(done);
        }
        done += got;
    }
    Ok(done)
}

// Reads a text to the start of `text`, and tells how many bytes. There is room for more than the longest text, so that a longer one is told from it.
fn read_text<R: Read>(from: &mut R, text: &mut [u8]) -> io::Result<usize>
    requires { most_input < length text.old }
    ensures front { IfOk result (λ count. TextRead count text.new) }
    ensures input { IfOk result (λ count. IfSome (R.remaining from.old) (λ input. seek (take count text.new) ≡ seek input)) }
{
    read_full(from, text)
}

// Hands to `write` what the first `count` bytes of a text are answered with, all of it and nothing else. The text is there for this statement alone.
fn write_answer<W: Write>(to: &mut W, text: &[u8], count: usize, bytes: &[u8]) -> io::Result<()>
    requires { bytes.now ≡ seek (take count text.now) }
    ensures { OnOk result (Appends (W.contents to.old) (W.contents to.new) (seek (take count text.now))) }
{
    to.write_all(bytes)
}

// Writes what `seek` prints for the first `count` bytes of a text.
pub fn print_answer<W: Write>(to: &mut W, text: &[u8], count: usize) -> io::Result<()>
    requires { count ≤ length text.now }
    ensures { OnOk result (Appends (W.contents to.old) (W.contents to.new) (seek (take count text.now))) }
{
    let mut vals = [0u32; 65536];
    let mut vectors = [0u8; 4096];
    let mut query = [0u8; 4096];
    let mut words = [0u32; 4608];
    let mut floats = [0.0f32; 512];
    let mut ids = [0u32; 256];
    let mut dists = [0.0f32; 256];
    let mut out = [0u8; 10816];
    let n = seek_answer::answer_text(
        &text[..count],
        &mut vals,
        &mut vectors,
        &mut query,
        &mut words,
        &mut floats,
        &mut ids,
        &mut dists,
        &mut out,
    );
    write_answer(to, text, count, &out[..n])
}

// Reads a search as text, and writes its answers or the number of its refusal.
pub fn answer<R: Read, W: Write>(from: &mut R, to: &mut W) -> io::Result<()>
    ensures { OnOk result (IfSome (R.remaining from.old) (λ input. Appends (W.contents to.old) (W.contents to.new) (seek input))) }
{
    let mut text = [0u8; 65537];
    let count = read_text(from, &mut text)?;
    print_answer(to, &text, count)
}

// The program `seek`: a search as text from standard input, and its answers or the number of its refusal to standard output.
pub fn answer_input(rt: &(impl Input + Print)) -> io::Result<()> {
    answer(&mut rt.reader(), &mut io::writer(rt))
}
