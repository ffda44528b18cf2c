// Part 10. Supplied draws, by value: each call takes the generator's state and returns the next one.
// A refusal returns the state as it came, and leaves the lent slice as it was. The calls on a lent generator are in the crate `generator`.
#![tactic(auto)]

ghost use Rattle.std.specs.Prelude.{◌≡◌};
ghost use Rattle.definition.specs.Numbers.{number};
ghost use Rattle.definition.specs.Outcome.{refused, done};
ghost use Rattle.draws.specs.Says.{stepped, DrawSays, RowsSays, SeedsSays, OrderSays, PivotsSays};

use checks::limits::{bad_count, bad_degree, bad_extra, bad_length, bad_start};
use definition::{Answer, Refusal};

mod numbers; // a remainder by comparison
mod order;
mod pivots;
mod rows;
mod seeds;
mod step; // the generator's step, and the draw that a state gives

// A state, and what a call answers.
#[repr(C)]
#[derive(Clone, Copy)]
pub struct Stepped {
    pub state: u64,
    pub answer: Answer,
}

// A refused call: the generator does not advance.
fn kept(state: u64, refusal: Refusal) -> Stepped
    ensures { result ≡ stepped state (refused (number refusal)) }
{
    let answer = answers::refused_for(refusal);
    Stepped { state, answer }
}

// A call that filled its output.
fn filled(state: u64) -> Stepped
    ensures { result ≡ stepped state done }
{
    let answer = answers::done();
    Stepped { state, answer }
}

// One draw below m: any m is accepted.
pub fn one_drawn(state: u64, m: u32) -> Stepped
    ensures { DrawSays state m result }
{
    let next = step::advance(state);
    let answer = answers::drew(step::drawn(m, next));
    Stepped {
        state: next,
        answer,
    }
}

// The opening rows: a whole closed table, i rising, one draw a row. A single entry has an empty row, and draws nothing.
pub fn rows_drawn(state: u64, n: usize, degree: usize, table: &mut [u32]) -> Stepped
    ensures { RowsSays state n degree table.old result table.new }
{
    if bad_count(n) {
        return kept(state, Refusal::Entries);
    }
    if bad_degree(degree) {
        return kept(state, Refusal::Degree);
    }
    if bad_length(n, degree, table.len()) {
        return kept(state, Refusal::Table);
    }
    if n == 1 {
        table::pad_from(table, 0);
        return filled(state);
    }
    let next = rows::fill_rows(state, n, degree, table);
    filled(next)
}

// A group of `extra` seeds, from empty.
pub fn seeds_drawn(state: u64, n: usize, start: u32, extra: usize, out: &mut [u32]) -> Stepped
    ensures { SeedsSays state n start extra out.old result out.new }
{
    if bad_count(n) {
        return kept(state, Refusal::Entries);
    }
    if bad_start(n, start) {
        return kept(state, Refusal::Start);
    }
    if bad_extra(n, extra) {
        return kept(state, Refusal::Seeds);
    }
    if out.len() < extra {
        return kept(state, Refusal::Room);
    }
    let next = seeds::fill_seeds(state, n as u32, start, extra, out);
    filled(next)
}

// An order of the n entries: 0 .. n-1, shuffled.
pub fn order_drawn(state: u64, n: usize, out: &mut [u32]) -> Stepped
    ensures { OrderSays state n out.old result out.new }
{
    if bad_count(n) {
        return kept(state, Refusal::Entries);
    }
    if out.len() < n {
        return kept(state, Refusal::Room);
    }
    order::count_up(&mut out[0..n]);
    let next = order::shuffle(state, &mut out[0..n]);
    filled(next)
}

// The pivots: min(8, n) draws below n.
pub fn pivots_drawn(state: u64, n: usize, out: &mut [u32]) -> Stepped
    ensures { PivotsSays state n out.old result out.new }
{
    if bad_count(n) {
        return kept(state, Refusal::Entries);
    }
    let many = n.min(8);
    if out.len() < many {
        return kept(state, Refusal::Room);
    }
    let next = pivots::fill_draws(state, n as u32, many, out);
    filled(next)
}
