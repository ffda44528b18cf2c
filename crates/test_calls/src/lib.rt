// Replays cases by the public calls that they name, and prints what each call leaves. The programs over it are a line each, with a list of cases as `stdin`:
// test_replay one that oracle/replay.rs makes with 000's own answers, test_build one for people.
// A list is words of text, as test_words reads them: the number of cases, and then the cases. A case is 20 numbers and the words of five lists. The numbers:
//   kind, n, dim, degree, beam, alpha (see `named_alpha`), extra seeds, start, k; the lengths of wide, closed, words, floats, ids and distances as lent;
//   the lengths of the lists: the vectors; the query or second vector; the order, nodes or pivots; the seeds; the table that is read.
// Kinds 0 to 6 are distance, medoid, search, build, batch, close and open, and print a line: the fields of the answer, and a sum over every word of what was
// lent, the words beyond the lent part included. 7 and 8 are build and batch with every row of their tables printed; k is then the words of a wide row.
#![tactic(auto)]

use calling::{Room, call_case};
use cases::{Lists, case_at, fill_lists};
use std::io;
use telling::tell_case;
use test_words::{read_input, word_at};

mod calling;
mod cases;
mod telling;

// The room as it is lent to a case, but for the table, which is filled with what the case reads.
fn lend_anew(room: &mut Room) {
    room.wide.fill(77);
    room.closed.fill(77);
    room.words.fill(77);
    room.floats.fill(77.0);
    room.ids.fill(77);
    room.dists.fill(77.0);
}

// Gives the place of the next case. The lists are filled anew, and the room is lent anew.
fn replay_case(
    rt: &impl Print,
    cases: &[u32],
    at: usize,
    lists: &mut Lists,
    room: &mut Room,
) -> io::Result<usize> {
    let c = case_at(cases, at);
    let next = fill_lists(cases, c, lists, &mut room.table);
    lend_anew(room);
    let a = call_case(c, lists, room);
    tell_case(rt, a, c, room)?;
    Ok(next)
}

// One room for all cases: a large value is written twice where it is made.
fn replay_cases(rt: &impl Print, cases: &[u32]) -> io::Result<()> {
    let mut lists = Lists {
        vectors: [0; 4096],
        query: [0; 300],
        list: [0; 1024],
        seeds: [0; 1024],
    };
    let mut room = Room {
        table: [0; 6000],
        wide: [77; 6000],
        closed: [77; 6000],
        words: [77; 36000],
        floats: [77.0; 3100],
        ids: [77; 300],
        dists: [77.0; 300],
    };
    let mut at: usize = 1;
    for _ in 0..word_at(cases, 0, 0) {
        at = replay_case(rt, cases, at, &mut lists, &mut room)?;
    }
    Ok(())
}

// A list of at most 65,536 words.
pub fn replay_input(rt: &(impl Input + Print)) -> io::Result<()> {
    let mut cases = [0u32; 65536];
    read_input(rt, &mut cases)?;
    replay_cases(rt, &cases)
}
