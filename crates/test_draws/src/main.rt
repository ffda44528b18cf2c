// Runs the samples of 01 on draws and the medoid, and some more, and prints what each call leaves: the number, the draw or the id,
// the generator's state, and every word of the lent slice (`-` for padding). A slice is lent full of 77, so that a word that no call wrote shows.
#![tactic(auto)]

use draws::Stepped;
use std::io;
use test_words::{Entry, say_rows};

// The answer and the state: the words come after.
fn say_stepped(rt: &impl Print, name: &str, s: Stepped) -> io::Result<()> {
    print!(rt;
        "{name} number {} draw {} state {}",
        Entry(s.answer.number),
        Entry(s.answer.draw),
        s.state
    )
}

fn say_drawn(rt: &impl Print, name: &str, s: Stepped, words: &[u32]) -> io::Result<()> {
    say_stepped(rt, name, s)?;
    print!(rt; " words")?;
    say_rows(rt, words, words.len())
}

fn show_draw(rt: &impl Print, state: u64, m: u32) -> io::Result<()> {
    say_stepped(rt, "draw", draws::one_drawn(state, m))?;
    println!(rt; "")
}

fn show_rows(
    rt: &impl Print,
    state: u64,
    n: usize,
    degree: usize,
    table: &mut [u32],
) -> io::Result<()> {
    let s = draws::rows_drawn(state, n, degree, table);
    say_drawn(rt, "rows", s, table)
}

fn show_seeds(rt: &impl Print, state: u64, n: usize, start: u32, extra: usize) -> io::Result<()> {
    let mut out = [77; 6];
    let s = draws::seeds_drawn(state, n, start, extra, &mut out);
    say_drawn(rt, "seeds", s, &out)
}

// By hand: this and the next are two calls; a closure would say no less.
fn show_order(rt: &impl Print, state: u64, n: usize) -> io::Result<()> {
    let mut out = [77; 9];
    let s = draws::order_drawn(state, n, &mut out);
    say_drawn(rt, "order", s, &out)
}

fn show_pivots(rt: &impl Print, state: u64, n: usize) -> io::Result<()> {
    let mut out = [77; 9];
    let s = draws::pivots_drawn(state, n, &mut out);
    say_drawn(rt, "pivots", s, &out)
}

// Of the line: dim 1, vectors 10, 20, 30, 40.
fn show_medoid(rt: &impl Print, n: usize, dim: usize, pivots: &[u32]) -> io::Result<()> {
    let a = medoid::medoid(n, dim, &[10, 20, 30, 40], pivots);
    println!(rt; "medoid number {} id {}", Entry(a.number), Entry(a.id))
}

fn draws_accepted(rt: &impl Print) -> io::Result<()> {
    show_draw(rt, 0, 100)?;
    show_draw(rt, u64::MAX, u32::MAX)?;
    show_draw(rt, 5, 0)?;
    show_rows(rt, 0, 5, 3, &mut [77; 15])?;
    show_rows(rt, 0, 3, 5, &mut [77; 15])?;
    show_rows(rt, 7, 1, 3, &mut [77; 3])?;
    show_seeds(rt, 0, 6, 2, 3)?;
    show_seeds(rt, 9, 4, 3, 3)?;
    show_order(rt, 0, 5)?;
    show_order(rt, 1, 1)?;
    show_pivots(rt, 0, 4)?;
    show_pivots(rt, 0, 1000)
}

fn draws_refused(rt: &impl Print) -> io::Result<()> {
    show_rows(rt, 7, 0, 3, &mut [77; 15])?;
    show_rows(rt, 7, 5, 65, &mut [77; 15])?;
    show_rows(rt, 7, 5, 4, &mut [77; 15])?;
    show_seeds(rt, 7, 65537, 2, 3)?;
    show_seeds(rt, 7, 6, 6, 3)?;
    show_seeds(rt, 7, 6, 5, 6)?;
    show_seeds(rt, 7, 100, 5, 7)?;
    show_order(rt, 7, 10)?;
    show_pivots(rt, 7, 65537)
}

fn medoids(rt: &impl Print) -> io::Result<()> {
    show_medoid(rt, 4, 1, &[0, 3])?;
    show_medoid(rt, 2, 2, &[1])?;
    show_medoid(rt, 4, 0, &[0, 3])?;
    show_medoid(rt, 4, 2, &[0, 3])?;
    show_medoid(rt, 4, 1, &[])?;
    show_medoid(rt, 4, 1, &[0, 4])?;
    show_medoid(rt, 4, 1, &[0; 9])
}

fn main(rt: HostRuntime) -> io::Result<()> {
    draws_accepted(&rt)?;
    draws_refused(&rt)?;
    medoids(&rt)
}
