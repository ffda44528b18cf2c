// The searches of 01's samples, and lookups of the line with stray words, with what each leaves: its number and count, how many entries it expanded and
// measured, the answers' ids, whether their distances are the stated ones, the sum of the words in the room and of those beyond it (7 each as lent), and the
// id after the answers (9 as lent).
#![tactic(auto)]

use definition::Answer;
use std::io;
use test_words::PADDING;

// How many of the distances are as stated, up to the first that is not.
fn agreeing(dists: &[f32], count: usize, stated: &[f32]) -> usize {
    dists
        .iter()
        .take(count)
        .zip(stated)
        .take_while(|(d, s)| d == s)
        .count()
}

fn total(words: &[u32]) -> u64 {
    words
        .iter()
        .fold(0, |sum: u64, x| sum.wrapping_add(u64::from(*x)))
}

// A line on what a search left of words, ids and distances.
fn say_found(
    rt: &impl Print,
    a: Answer,
    words: &[u32; 560],
    ids: &[u32],
    dists: &[f32],
    stated: &[f32],
) -> io::Result<()> {
    print!(rt;
        "{} {} expanded {} measured {} ids ",
        a.number, a.count, a.expanded, a.measured
    )?;
    for id in ids.iter().take(a.count) {
        print!(rt; "{id} ")?;
    }
    let agree = agreeing(dists, a.count, stated);
    let (room, beyond) = words.split_at(516);
    print!(rt;
        "distances as stated {agree} room {} beyond {} next id ",
        total(room),
        total(beyond)
    )?;
    if let Some(id) = ids.get(a.count) {
        print!(rt; "{id} ")?;
    }
    println!(rt; "")
}

// What a call leaves of what it is lent.
fn show<F: FnOnce(&mut [u32], &mut [f32], &mut [u32], &mut [f32]) -> Answer>(
    rt: &impl Print,
    stated: &[f32],
    call: F,
) -> io::Result<()>
    requires { F.IsAlwaysCallable call }
{
    let mut words = [7; 560];
    let mut floats = [7.0; 520];
    let mut ids = [9; 9];
    let mut dists = [9.0; 9];
    let a = call(&mut words, &mut floats, &mut ids, &mut dists);
    say_found(rt, a, &words, &ids, &dists, stated)
}

// A search of four entries of one byte by two words each, from entry 0.
fn show_search(
    rt: &impl Print,
    vectors: &[u8],
    table: &[u32],
    query: u8,
    beam: usize,
    k: usize,
    stated: &[f32],
) -> io::Result<()> {
    show(rt, stated, |words, floats, ids, dists| {
        search::search(
            4,
            1,
            vectors,
            2,
            beam,
            k,
            0,
            table,
            &[query],
            words,
            floats,
            ids,
            dists,
        )
    })
}

// The same as a lookup.
fn show_lookup(
    rt: &impl Print,
    vectors: &[u8],
    table: &[u32],
    query: u8,
    beam: usize,
    k: usize,
    stated: &[f32],
) -> io::Result<()> {
    show(rt, stated, |words, floats, ids, dists| {
        search::lookup(
            4,
            1,
            vectors,
            2,
            beam,
            k,
            0,
            table,
            &[query],
            words,
            floats,
            ids,
            dists,
        )
    })
}

// What fit says of a table of that degree for four entries.
fn show_fit(rt: &impl Print, degree: usize, table: &[u32]) -> io::Result<()> {
    println!(rt; "{} ", search::fit(4, degree, table).number)
}

// Searches and lookups of lines by 01's rows, two words each.
fn show_searches(rt: &impl Print, line: &[u8], other: &[u8], rows: &[u32]) -> io::Result<()> {
    print!(rt; "query 38 beam 2 k 2: ")?;
    show_search(rt, line, rows, 38, 2, 2, &[4.0, 64.0])?;
    print!(rt; "query 38 beam 1 k 2: ")?;
    show_search(rt, line, rows, 38, 1, 2, &[784.0])?;
    print!(rt; "query 38 beam 0 k 2: ")?;
    show_search(rt, line, rows, 38, 0, 2, &[784.0])?;
    print!(rt; "query 38 beam 8 k 8: ")?;
    show_search(rt, line, rows, 38, 8, 8, &[4.0, 64.0, 324.0, 784.0])?;
    print!(rt; "query 25 beam 4 k 4: ")?;
    show_search(rt, line, rows, 25, 4, 4, &[25.0, 25.0, 225.0, 225.0])?;
    print!(rt; "missed entry: ")?;
    show_search(rt, other, rows, 25, 2, 2, &[25.0, 25.0])?;
    print!(rt; "query 38 beam 257 k 2: ")?;
    show_search(rt, line, rows, 38, 257, 2, &[0.0])?;
    print!(rt; "query 38 beam 4 k 0: ")?;
    show_search(rt, line, rows, 38, 4, 0, &[0.0])
}

// The same line by rows with stray words, and by a word too few.
fn show_lookups(rt: &impl Print, line: &[u8], rows: &[u32], stray: &[u32; 8]) -> io::Result<()> {
    print!(rt; "lookup of the line: ")?;
    show_lookup(rt, line, rows, 38, 2, 2, &[4.0, 64.0])?;
    print!(rt; "lookup, stray words: ")?;
    show_lookup(rt, line, stray, 38, 2, 2, &[4.0, 64.0])?;
    print!(rt; "search, stray words: ")?;
    show_search(rt, line, stray, 38, 2, 2, &[0.0])?;
    print!(rt; "lookup, a word too few: ")?;
    show_lookup(rt, line, &stray[..7], 38, 2, 2, &[0.0])
}

fn show_fits(rt: &impl Print, rows: &[u32], stray: &[u32]) -> io::Result<()> {
    print!(rt; "fit of the line: ")?;
    show_fit(rt, 2, rows)?;
    print!(rt; "fit, stray words: ")?;
    show_fit(rt, 2, stray)?;
    print!(rt; "fit, degree 65: ")?;
    show_fit(rt, 65, rows)
}

fn main(rt: HostRuntime) -> io::Result<()> {
    let line = [10, 20, 30, 40];
    let other = [10, 20, 30, 25];
    let rows = [1, PADDING, 0, 2, 1, 3, 2, PADDING];
    let stray = [4294967294, 1, 0, 2, 4, 3, 2, 5];
    show_searches(&rt, &line, &other, &rows)?;
    show_lookups(&rt, &line, &rows, &stray)?;
    show_fits(&rt, &rows, &stray)
}
