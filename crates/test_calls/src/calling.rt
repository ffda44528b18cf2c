// The public call of a case. Of each slice it is lent the front, as long as the case has it, and at most all.

use super::cases::{Case, Kind, Lists};
use definition::Answer;

// What a call may write, lent full of 77, so that a word that no call wrote shows; but the table is the one that is read.
#[derive(Drop)]
pub struct Room {
    pub table: [u32; 6000],
    pub wide: [u32; 6000],
    pub closed: [u32; 6000],
    pub words: [u32; 36000],
    pub floats: [f32; 3100],
    pub ids: [u32; 300],
    pub dists: [f32; 300],
}

pub fn front<T: Copy>(xs: &[T], many: usize) -> &[T] {
    &xs[..many.min(xs.len())]
}

fn front_mut<T: Copy>(xs: &mut [T], many: usize) -> &mut [T] {
    let end = many.min(xs.len());
    &mut xs[..end]
}

fn call_distance(c: Case, lists: &Lists) -> Answer {
    metric::distance(
        front(&lists.vectors, c.vectors),
        front(&lists.query, c.query),
    )
}

fn call_medoid(c: Case, lists: &Lists) -> Answer {
    let vectors = front(&lists.vectors, c.vectors);
    medoid::medoid(c.n, c.dim, vectors, front(&lists.list, c.list))
}

fn call_search(c: Case, lists: &Lists, room: &mut Room) -> Answer {
    search::search(
        c.n,
        c.dim,
        front(&lists.vectors, c.vectors),
        c.params.degree,
        c.params.beam,
        c.k,
        c.start,
        front(&room.table, c.table),
        front(&lists.query, c.query),
        front_mut(&mut room.words, c.words),
        front_mut(&mut room.floats, c.floats),
        front_mut(&mut room.ids, c.ids),
        front_mut(&mut room.dists, c.dists),
    )
}

fn call_build(c: Case, lists: &Lists, room: &mut Room) -> Answer {
    build::build(
        c.n,
        c.dim,
        front(&lists.vectors, c.vectors),
        c.params,
        c.start,
        front(&lists.list, c.list),
        front(&lists.seeds, c.seeds),
        front(&room.table, c.table),
        front_mut(&mut room.wide, c.wide),
        front_mut(&mut room.closed, c.closed),
        front_mut(&mut room.words, c.words),
        front_mut(&mut room.floats, c.floats),
    )
}

// The table that is read is also the one that is written.
fn call_batch(c: Case, lists: &Lists, room: &mut Room) -> Answer {
    batch::batch(
        c.n,
        c.dim,
        front(&lists.vectors, c.vectors),
        c.params,
        c.start,
        front(&lists.list, c.list),
        front(&lists.seeds, c.seeds),
        front_mut(&mut room.table, c.table),
        front_mut(&mut room.words, c.words),
        front_mut(&mut room.floats, c.floats),
    )
}

fn call_close(c: Case, lists: &Lists, room: &mut Room) -> Answer {
    build::close(
        c.n,
        c.dim,
        front(&lists.vectors, c.vectors),
        c.params,
        front(&room.table, c.table),
        front_mut(&mut room.closed, c.closed),
        front_mut(&mut room.words, c.words),
        front_mut(&mut room.floats, c.floats),
    )
}

fn call_open(c: Case, room: &mut Room) -> Answer {
    let opening = front(&room.table, c.table);
    let wide = front_mut(&mut room.wide, c.wide);
    build::open(c.n, c.params.degree, opening, wide)
}

pub fn call_case(c: Case, lists: &Lists, room: &mut Room) -> Answer {
    match c.kind {
        Kind::Distance => call_distance(c, lists),
        Kind::Medoid => call_medoid(c, lists),
        Kind::Search => call_search(c, lists, room),
        Kind::Build(_) => call_build(c, lists, room),
        Kind::Batch(_) => call_batch(c, lists, room),
        Kind::Close => call_close(c, lists, room),
        Kind::Open => call_open(c, room),
    }
}
