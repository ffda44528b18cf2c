// The checks of an exhaustive search and of a report, in rising order of their numbers: the first that holds refuses it. All that no test reads is given by
// its length, the queries too.
#![tactic(auto)]

ghost use Rattle.std.specs.Prelude.{◌≡◌, ◌≤◌};
ghost use Rattle.definition.specs.Numbers.{number_told};
ghost use Rattle.definition.specs.Refusals.{bad_k};
ghost use Rattle.checks_recall.specs.Lengths.{nearest_short, report_short, wrong_queries};
ghost use Rattle.checks_recall.specs.ExhaustiveNumber.{ExhaustiveNumbered};
ghost use Rattle.checks_recall.specs.ReportNumber.{ReportNumbered};

use checks::tables::bad_searched;
use checks_number::{check_entries, check_limits};
use definition::Refusal;

// 14
#[tactic(auto, unfolding(definition::specs::Refusals::bad_k))]
fn bad_k(k: usize) -> bool
    ensures { result ≡ bad_k k }
{
    k == 0 || 256 < k
}

// 10, of an exhaustive search.
#[tactic(auto, unfolding(crate::specs::Lengths::nearest_short))]
fn nearest_short(n: usize, k: usize, ids: usize, dists: usize) -> bool
    ensures { result ≡ nearest_short n k ids dists }
{
    let most = k.min(n);
    ids < most || dists < most
}

// 10, of a report.
#[tactic(auto, unfolding(crate::specs::Lengths::report_short))]
fn report_short(n: usize, words: usize, floats: usize) -> bool
    requires { n ≤ 65536 }
    ensures { result ≡ report_short n words floats }
{
    words < n + 1024 || floats < 1024
}

// 11, of queries one after another.
#[tactic(auto, unfolding(crate::specs::Lengths::wrong_queries))]
fn bad_queries(dim: usize, queries: usize) -> bool
    requires { 1 ≤ dim }
    ensures { result ≡ wrong_queries dim queries }
{
    queries % dim != 0 || 65535 < queries / dim
}

// Of an exhaustive search.
pub fn check_exhaustive(
    n: usize,
    dim: usize,
    vectors: &[u8],
    k: usize,
    query: usize,
    ids: usize,
    dists: usize,
) -> Result<(), Refusal>
    ensures { ExhaustiveNumbered n dim vectors.now k query ids dists (number_told result) }
{
    check_entries(n, dim, vectors)?;
    if nearest_short(n, k, ids, dists) {
        return Err(Refusal::Room);
    }
    if query != dim {
        return Err(Refusal::Query);
    }
    if bad_k(k) {
        return Err(Refusal::Nearest);
    }
    Ok(())
}

// Of a report.
pub fn check_report(
    n: usize,
    dim: usize,
    vectors: &[u8],
    degree: usize,
    beam: usize,
    k: usize,
    start: u32,
    table: &[u32],
    queries: usize,
    words: usize,
    floats: usize,
) -> Result<(), Refusal>
    ensures { ReportNumbered n dim vectors.now degree beam k start table.now queries words floats (number_told result) }
{
    check_limits(n, dim, vectors, degree, beam, start)?;
    if bad_searched(n, degree, table) {
        return Err(Refusal::Table);
    }
    if report_short(n, words, floats) {
        return Err(Refusal::Room);
    }
    if bad_queries(dim, queries) {
        return Err(Refusal::Query);
    }
    if bad_k(k) {
        return Err(Refusal::Nearest);
    }
    Ok(())
}
