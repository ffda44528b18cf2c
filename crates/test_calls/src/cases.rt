// Reading a case: its numbers, and the lists after them.

use definition::Params;
use test_words::{copy_words, copy_words_as, number_at, word_at};

// The alphas that the cases name: NaN, below 1, 1, the default, to the limit, and beyond it.
fn named_alpha(i: u32) -> f32 {
    match i {
        0 => 0.0 / 0.0,
        1 => -3.0,
        2 => 0.5,
        3 => 1.0,
        4 => 1.2,
        5 => 1.25,
        6 => 2.0,
        7 => 3.7,
        8 => 4.0,
        9 => 4.0000005,
        10 => 1.0 / 0.0,
        11 => 100.0,
        _ => 5.0,
    }
}

// How much is told of what a call wrote: a sum, or every row.
#[derive(Clone, Copy, Debug, PartialEq, Eq)]
pub enum Told {
    Sums,
    Rows,
}

#[derive(Clone, Copy, Debug, PartialEq, Eq)]
pub enum Kind {
    Distance,
    Medoid,
    Search,
    Build(Told),
    Batch(Told),
    Close,
    Open,
}

impl From<u32> for Kind {
    fn from(kind: u32) -> Kind {
        match kind {
            0 => Kind::Distance,
            1 => Kind::Medoid,
            2 => Kind::Search,
            3 => Kind::Build(Told::Sums),
            4 => Kind::Batch(Told::Sums),
            5 => Kind::Close,
            7 => Kind::Build(Told::Rows),
            8 => Kind::Batch(Told::Rows),
            _ => Kind::Open,
        }
    }
}

// The numbers of a case, and the place of its first list.
#[derive(Clone, Copy)]
pub struct Case {
    pub kind: Kind,
    pub n: usize,
    pub dim: usize,
    pub params: Params,
    pub start: u32,
    pub k: usize,
    pub wide: usize,
    pub closed: usize,
    pub words: usize,
    pub floats: usize,
    pub ids: usize,
    pub dists: usize,
    pub vectors: usize,
    pub query: usize,
    pub list: usize,
    pub seeds: usize,
    pub table: usize,
    pub lists: usize,
}

fn params_at(cases: &[u32], at: usize) -> Params {
    Params {
        degree: number_at(cases, at, 3),
        beam: number_at(cases, at, 4),
        alpha: named_alpha(word_at(cases, at, 5)),
        extra: number_at(cases, at, 6),
    }
}

pub fn case_at(cases: &[u32], at: usize) -> Case {
    Case {
        kind: Kind::from(word_at(cases, at, 0)),
        n: number_at(cases, at, 1),
        dim: number_at(cases, at, 2),
        params: params_at(cases, at),
        start: word_at(cases, at, 7),
        k: number_at(cases, at, 8),
        wide: number_at(cases, at, 9),
        closed: number_at(cases, at, 10),
        words: number_at(cases, at, 11),
        floats: number_at(cases, at, 12),
        ids: number_at(cases, at, 13),
        dists: number_at(cases, at, 14),
        vectors: number_at(cases, at, 15),
        query: number_at(cases, at, 16),
        list: number_at(cases, at, 17),
        seeds: number_at(cases, at, 18),
        table: number_at(cases, at, 19),
        lists: at.wrapping_add(20),
    }
}

// The lists that a call reads.
#[derive(Drop)]
pub struct Lists {
    pub vectors: [u8; 4096],
    pub query: [u8; 300],
    pub list: [u32; 1024],
    pub seeds: [u32; 1024],
}

fn low_byte(x: u32) -> u8 {
    (x % 256) as u8
}

// Copies the five lists, and gives the place after them.
pub fn fill_lists(cases: &[u32], c: Case, lists: &mut Lists, table: &mut [u32]) -> usize {
    let query = c.lists.wrapping_add(c.vectors);
    let list = query.wrapping_add(c.query);
    let seeds = list.wrapping_add(c.list);
    let rows = seeds.wrapping_add(c.seeds);
    copy_words_as(cases, c.lists, &mut lists.vectors, low_byte);
    copy_words_as(cases, query, &mut lists.query, low_byte);
    copy_words(cases, list, &mut lists.list);
    copy_words(cases, seeds, &mut lists.seeds);
    copy_words(cases, rows, table);
    rows.wrapping_add(c.table)
}
