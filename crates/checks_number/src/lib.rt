// The checks of each public call, in rising order of their numbers: the first that holds refuses it.
// What a call is lent for writing and does not read is given by its length.
#![tactic(auto)]

ghost use Rattle.std.specs.Prelude.{◌≡◌, ◌≤◌};
ghost use Rattle.definition.specs.Numbers.{number_told};
ghost use Rattle.checks_number.specs.Tests.{number_of};
ghost use Rattle.checks_number.specs.Shared.{entry_tests, param_tests};
ghost use Rattle.checks_number.specs.SearchNumber.{limit_tests, length_tests, SearchNumbered, LookupNumbered};
ghost use Rattle.checks_number.specs.FitNumber.{FitNumbered};
ghost use Rattle.checks_number.specs.BuildNumbers.{BatchNumbered, OpenNumbered, CloseNumbered, BuildNumbered};
ghost use Rattle.checks_number.specs.MedoidNumber.{MedoidNumbered};

use checks::limits::{
    bad_alpha, bad_beam, bad_count, bad_degree, bad_dim, bad_length, bad_start, bad_vectors,
    bad_wide_length,
};
use checks::rooms::{build_short, search_short};
use checks::sets::{bad_nodes, bad_order, bad_pivots, bad_seeds};
use checks::tables::{bad_searched, bad_table, bad_wide};
use definition::{Params, Refusal};

// What a search asks: the k nearest to a query of n entries of dim samples, one after another in `vectors`, by a walk that begins at `start`, on a table of rows
// of `degree` words.
#[derive(Clone, Copy)]
pub struct Asked<'a> {
    pub n: usize,
    pub dim: usize,
    pub vectors: &'a [u8],
    pub degree: usize,
    pub beam: usize,
    pub k: usize,
    pub start: u32,
    pub table: &'a [u32],
    pub query: &'a [u8],
}

// 1 and 2, which most calls begin with.
pub fn check_entries(n: usize, dim: usize, vectors: &[u8]) -> Result<(), Refusal>
    ensures { number_told result ≡ number_of (entry_tests n dim vectors.now) }
{
    if bad_dim(dim) {
        return Err(Refusal::Dimension);
    }
    if bad_vectors(n, dim, vectors) {
        return Err(Refusal::Entries);
    }
    Ok(())
}

// 1 to 6, which a batch and a whole build begin with.
fn check_params(
    n: usize,
    dim: usize,
    vectors: &[u8],
    params: Params,
    start: u32,
) -> Result<(), Refusal>
    ensures { number_told result ≡ number_of (param_tests n dim vectors.now params start) }
{
    check_entries(n, dim, vectors)?;
    if bad_degree(params.degree) {
        return Err(Refusal::Degree);
    }
    if bad_beam(params.beam) {
        return Err(Refusal::Beam);
    }
    if bad_alpha(params.alpha) {
        return Err(Refusal::Alpha);
    }
    if bad_start(n, start) {
        return Err(Refusal::Start);
    }
    Ok(())
}

// 1 to 6, which a search, a lookup and a report begin with.
pub fn check_limits(
    n: usize,
    dim: usize,
    vectors: &[u8],
    degree: usize,
    beam: usize,
    start: u32,
) -> Result<(), Refusal>
    ensures { number_told result ≡ number_of (limit_tests n dim vectors.now degree beam start) }
{
    check_entries(n, dim, vectors)?;
    if bad_degree(degree) {
        return Err(Refusal::Degree);
    }
    if bad_beam(beam) {
        return Err(Refusal::Beam);
    }
    if bad_start(n, start) {
        return Err(Refusal::Start);
    }
    Ok(())
}

// 10 and 11, which they end with.
fn check_lengths(
    asked: Asked,
    words: usize,
    floats: usize,
    ids: usize,
    dists: usize,
    run: usize,
) -> Result<(), Refusal>
    requires { asked.n ≤ 65536 }
    ensures { number_told result ≡ number_of (length_tests asked.entry words floats ids dists run) }
{
    if search_short(asked.n, asked.beam, asked.k, words, floats, ids, dists, run) {
        return Err(Refusal::Room);
    }
    if asked.query.len() != asked.dim {
        return Err(Refusal::Query);
    }
    Ok(())
}

// Of a search, with `run` records beside its two outputs; a search without them gives k.
pub fn check_search(
    asked: Asked,
    words: usize,
    floats: usize,
    ids: usize,
    dists: usize,
    run: usize,
) -> Result<(), Refusal>
    ensures { SearchNumbered asked.entry words floats ids dists run (number_told result) }
{
    check_limits(
        asked.n,
        asked.dim,
        asked.vectors,
        asked.degree,
        asked.beam,
        asked.start,
    )?;
    if bad_searched(asked.n, asked.degree, asked.table) {
        return Err(Refusal::Table);
    }
    check_lengths(asked, words, floats, ids, dists, run)
}

// Of a lookup: of its table the length alone is looked at, and so it is the number of the search whose table is cleaned.
pub fn check_lookup(
    asked: Asked,
    words: usize,
    floats: usize,
    ids: usize,
    dists: usize,
) -> Result<(), Refusal>
    ensures { LookupNumbered asked.entry words floats ids dists (number_told result) }
{
    check_limits(
        asked.n,
        asked.dim,
        asked.vectors,
        asked.degree,
        asked.beam,
        asked.start,
    )?;
    if bad_length(asked.n, asked.degree, asked.table.len()) {
        return Err(Refusal::Table);
    }
    check_lengths(asked, words, floats, ids, dists, asked.k)
}

// Of fit.
pub fn check_fit(n: usize, degree: usize, table: &[u32]) -> Result<(), Refusal>
    ensures { FitNumbered n degree table.now (number_told result) }
{
    if bad_count(n) {
        return Err(Refusal::Entries);
    }
    if bad_degree(degree) {
        return Err(Refusal::Degree);
    }
    if bad_searched(n, degree, table) {
        return Err(Refusal::Table);
    }
    Ok(())
}

// Of a batch.
pub fn check_batch(
    n: usize,
    dim: usize,
    vectors: &[u8],
    params: Params,
    start: u32,
    nodes: &[u32],
    seeds: &[u32],
    wide: &[u32],
    words: usize,
    floats: usize,
) -> Result<(), Refusal>
    ensures { BatchNumbered n dim vectors.now params start nodes.now seeds.now wide.now words floats (number_told result) }
{
    check_params(n, dim, vectors, params, start)?;
    if bad_seeds(n, params.extra, start, nodes.len(), seeds) {
        return Err(Refusal::Seeds);
    }
    if bad_wide(n, params.degree, wide) {
        return Err(Refusal::Table);
    }
    if bad_nodes(n, nodes) {
        return Err(Refusal::Nodes);
    }
    if build_short(n, words, floats) {
        return Err(Refusal::Room);
    }
    Ok(())
}

// Of open.
pub fn check_open(n: usize, degree: usize, opening: &[u32], wide: usize) -> Result<(), Refusal>
    ensures { OpenNumbered n degree opening.now wide (number_told result) }
{
    if bad_count(n) {
        return Err(Refusal::Entries);
    }
    if bad_degree(degree) {
        return Err(Refusal::Degree);
    }
    if bad_table(n, degree, opening) {
        return Err(Refusal::Table);
    }
    if bad_wide_length(n, degree, wide) {
        return Err(Refusal::Table);
    }
    Ok(())
}

// Of close.
pub fn check_close(
    n: usize,
    dim: usize,
    vectors: &[u8],
    params: Params,
    wide: &[u32],
    closed: usize,
    words: usize,
    floats: usize,
) -> Result<(), Refusal>
    ensures { CloseNumbered n dim vectors.now params wide.now closed words floats (number_told result) }
{
    check_entries(n, dim, vectors)?;
    if bad_degree(params.degree) {
        return Err(Refusal::Degree);
    }
    if bad_alpha(params.alpha) {
        return Err(Refusal::Alpha);
    }
    if bad_wide(n, params.degree, wide) {
        return Err(Refusal::Table);
    }
    if bad_length(n, params.degree, closed) {
        return Err(Refusal::Table);
    }
    if build_short(n, words, floats) {
        return Err(Refusal::Room);
    }
    Ok(())
}

// Of a whole build.
pub fn check_build(
    n: usize,
    dim: usize,
    vectors: &[u8],
    params: Params,
    start: u32,
    order: &[u32],
    seeds: &[u32],
    opening: &[u32],
    wide: usize,
    closed: usize,
    words: usize,
    floats: usize,
) -> Result<(), Refusal>
    ensures { BuildNumbered n dim vectors.now params start order.now seeds.now opening.now wide closed words floats (number_told result) }
{
    check_params(n, dim, vectors, params, start)?;
    if bad_seeds(n, params.extra, start, n, seeds) {
        return Err(Refusal::Seeds);
    }
    if bad_table(n, params.degree, opening) {
        return Err(Refusal::Table);
    }
    if bad_wide_length(n, params.degree, wide) {
        return Err(Refusal::Table);
    }
    if bad_length(n, params.degree, closed) {
        return Err(Refusal::Table);
    }
    if bad_order(n, order) {
        return Err(Refusal::Nodes);
    }
    if build_short(n, words, floats) {
        return Err(Refusal::Room);
    }
    Ok(())
}

// Of medoid.
pub fn check_medoid(n: usize, dim: usize, vectors: &[u8], pivots: &[u32]) -> Result<(), Refusal>
    ensures { MedoidNumbered n dim vectors.now pivots.now (number_told result) }
{
    check_entries(n, dim, vectors)?;
    if bad_pivots(n, pivots) {
        return Err(Refusal::Pivots);
    }
    Ok(())
}
