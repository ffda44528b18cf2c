// What a call left, printed.

use super::calling::{Room, front};
use super::cases::{Case, Kind, Told};
use definition::Answer;
use std::io;
use test_words::{Entry, Word, float_word, say_rows, words_sum};

fn say_answer(rt: &impl Print, a: Answer) -> io::Result<()> {
    print!(rt;
        "{} {} {} {} {} {} {} ",
        a.number,
        a.count,
        a.id,
        a.draw,
        float_word(a.distance),
        a.expanded,
        a.measured
    )
}

fn say_sum<T: Word>(rt: &impl Print, xs: &[T]) -> io::Result<()> {
    print!(rt; "{} ", words_sum(xs))
}

fn say_scratch(rt: &impl Print, room: &Room) -> io::Result<()> {
    say_sum(rt, &room.words)?;
    say_sum(rt, &room.floats)
}

// The sums of what a call may write. Beyond the lent part of a batch's table there is only more of the list.
fn say_left(rt: &impl Print, c: Case, room: &Room) -> io::Result<()> {
    match c.kind {
        Kind::Distance | Kind::Medoid => Ok(()),
        Kind::Search => {
            say_sum(rt, &room.ids)?;
            say_sum(rt, &room.dists)?;
            say_scratch(rt, room)
        }
        Kind::Build(_) => {
            say_sum(rt, &room.wide)?;
            say_sum(rt, &room.closed)?;
            say_scratch(rt, room)
        }
        Kind::Batch(_) => {
            say_sum(rt, front(&room.table, c.table))?;
            say_scratch(rt, room)
        }
        Kind::Close => {
            say_sum(rt, &room.closed)?;
            say_scratch(rt, room)
        }
        Kind::Open => say_sum(rt, &room.wide),
    }
}

// The room that 01 states for n entries, which a call that is done leaves zero: `each` for each entry, and `beyond`.
fn zeroed(a: Answer, n: usize, each: usize, beyond: usize) -> usize {
    // By hand: the answer is C's, where 0 is no refusal.
    if a.number != 0 {
        return 0;
    }
    each.wrapping_mul(n).wrapping_add(beyond)
}

// How many are not as stated: zero in the room of a call that is done, else as lent.
fn differing<T: Copy + PartialEq>(xs: &[T], zeroed: usize, zero: T, lent: T) -> usize {
    let (done, rest) = xs.split_at(zeroed.min(xs.len()));
    let written = done.iter().filter(|x| **x != zero).count();
    let changed = rest.iter().filter(|x| **x != lent).count();
    written.wrapping_add(changed)
}

// The number, and how many words and floats are not as stated.
fn tell_scratch(rt: &impl Print, a: Answer, n: usize, room: &Room) -> io::Result<()> {
    println!(rt;
        " number {}, not as stated: words {} floats {}",
        Entry(a.number),
        differing(&room.words, zeroed(a, n, 6, 32768), 0, 77),
        differing(&room.floats, zeroed(a, n, 4, 1024), 0.0, 77.0)
    )
}

fn tell_build(rt: &impl Print, a: Answer, c: Case, room: &Room) -> io::Result<()> {
    print!(rt; "build")?;
    tell_scratch(rt, a, c.n, room)?;
    println!(rt; "wide")?;
    say_rows(rt, front(&room.wide, c.wide), c.k)?;
    println!(rt; "closed")?;
    say_rows(rt, front(&room.closed, c.closed), c.params.degree)
}

fn tell_batch(rt: &impl Print, a: Answer, c: Case, room: &Room) -> io::Result<()> {
    print!(rt; "batch")?;
    tell_scratch(rt, a, c.n, room)?;
    say_rows(rt, front(&room.table, c.table), c.k)
}

pub fn tell_case(rt: &impl Print, a: Answer, c: Case, room: &Room) -> io::Result<()> {
    match c.kind {
        Kind::Build(Told::Rows) => tell_build(rt, a, c, room),
        Kind::Batch(Told::Rows) => tell_batch(rt, a, c, room),
        _ => {
            say_answer(rt, a)?;
            say_left(rt, c, room)?;
            println!(rt; "")
        }
    }
}
