// Words, for the programs that only test: read from text, copied out as lists, summed so that a slice can be compared, and printed.
#![tactic(auto)]

ghost use Rattle.std.specs.Prelude.{◌≡◌, length};

use std::fmt::{Display, Formatter};
use std::io::Read;
use std::{fmt, io};

pub const PADDING: u32 = u32::MAX;

// What a byte of text stands in.
#[derive(Clone, Copy, Debug, PartialEq, Eq)]
enum Part {
    Blank,
    Word,
    Comment,
}

impl Part {
    // A comment goes from `#` to the end of its line.
    fn next(self, b: u8) -> Part {
        match (self, b) {
            (_, b'\n') => Part::Blank,
            (Part::Comment, _) | (_, b'#') => Part::Comment,
            (_, 0..=b' ') => Part::Blank,
            _ => Part::Word,
        }
    }
}

// How far a text is read: what its last byte stands in, the place of the word that is being read or comes next, and its value so far.
#[derive(Clone, Copy)]
struct Reading {
    part: Part,
    at: usize,
    value: u32,
}

impl Reading {
    // One byte more. The place moves on where a word ends; the value is of a digit more, modulo 2^32, or `-`, which is padding.
    fn next(self, b: u8) -> Reading {
        let part = self.part.next(b);
        let ended = self.part == Part::Word && part != Part::Word;
        let at = self.at.wrapping_add(usize::from(ended));
        let value = match (part, b) {
            (Part::Word, b'-') => PADDING,
            (Part::Word, _) => self
                .value
                .wrapping_mul(10)
                .wrapping_add(u32::from(b).wrapping_sub(48)),
            _ => 0,
        };
        Reading { part, at, value }
    }
}

// The words of a stretch of text: decimals or `-`, with blanks, newlines and comments between them.
fn read_words(from: Reading, text: &[u8], words: &mut [u32]) -> Reading {
    let mut r = from;
    for b in text {
        r = r.next(*b);
        if let Some(word) = words.get_mut(r.at) {
            *word = r.value;
        }
    }
    r
}

// The words of standard input, of which at most 2^20 bytes are read. Words that are not there stay as they are.
pub fn read_input(rt: &impl Input, words: &mut [u32]) -> io::Result<()> {
    let mut input = rt.reader().take(1048576);
    let mut text = [0u8; 65536];
    let mut r = Reading {
        part: Part::Blank,
        at: 0,
        value: 0,
    };
    for _ in 0..1048576 {
        let got = input.read(&mut text)?;
        if got == 0 {
            return Ok(());
        }
        r = read_words(r, &text[..got], words);
    }
    Ok(())
}

// The word `far` places after `at`; 0 beyond the last.
pub fn word_at(words: &[u32], at: usize, far: usize) -> u32 {
    words.get(at.wrapping_add(far)).copied().unwrap_or(0)
}

pub fn number_at(words: &[u32], at: usize, far: usize) -> usize {
    word_at(words, at, far) as usize
}

// The words from `at` on, as many as `list` has room for.
pub fn copy_words(words: &[u32], at: usize, list: &mut [u32])
    ensures { length list.new ≡ length list.old }
{
    copy_words_as(words, at, list, |word| word);
}

// What the words from `at` on stand for, as many as `list` has room for.
pub fn copy_words_as<T: Copy, F: Fn(u32) -> T>(words: &[u32], at: usize, list: &mut [T], of_word: F)
    requires { F.IsAlwaysCallable of_word }
    ensures { length list.new ≡ length list.old }
{
    for (i, x) in list.iter_mut().enumerate() {
        *x = of_word(word_at(words, at, i));
    }
}

// `low`, or with `step` more where x is not below that.
fn at_least(x: f32, low: u32, step: u32) -> u32 {
    let next = low.wrapping_add(step);
    if x < std::num::nearest_u32_to_f32(next) {
        low
    } else {
        next
    }
}

// The whole number that a distance is, below 2^24; 2^24 - 1 for any float beyond or NaN.
pub fn float_word(x: f32) -> u32 {
    let mut low: u32 = 0;
    for i in 0..24u32 {
        low = at_least(x, low, 8388608 >> i);
    }
    low
}

// What an element counts for in a sum.
pub trait Word: Copy {
    fn word(self) -> u32;
}

impl Word for u32 {
    fn word(self) -> u32 {
        self
    }
}

impl Word for f32 {
    fn word(self) -> u32 {
        float_word(self)
    }
}

// 16,777,619 times the sum of both, modulo 2^32.
fn mixed(sum: u32, x: u32) -> u32 {
    sum.wrapping_add(x).wrapping_mul(16777619)
}

// A sum that depends on every element and its place.
pub fn words_sum<T: Word>(xs: &[T]) -> u32 {
    xs.iter().fold(2166136261, |sum, x| mixed(sum, x.word()))
}

// A word of a table, `-` for padding.
#[derive(Clone, Copy, Debug, PartialEq, Eq)]
pub struct Entry(pub u32);

impl Display for Entry {
    fn fmt<W: fmt::Write>(&self, f: &mut Formatter<W>) -> fmt::Result {
        match self.0 {
            PADDING => write!(f, "-"),
            x => write!(f, "{x}"),
        }
    }
}

// A row ends after each `width` words.
pub fn say_rows(rt: &impl Print, xs: &[u32], width: usize) -> io::Result<()> {
    for (i, x) in xs.iter().enumerate() {
        print!(rt; " {}", Entry(*x))?;
        if (i + 1).checked_rem(width) == Some(0) {
            println!(rt; "")?;
        }
    }
    Ok(())
}
