// The face: every public call by value, under its name for C. Numbers and records go by value, a slice as its address and its length.
// Each says what the call itself says: what it returns and leaves is a function of everything at entry (crate definition, Outcome).
// A generator goes by value too: its state is given, and the state after the call comes back beside the answer (the same state, if refused).
// Nothing asks a caller in C that a slice is as long as it says, or that two slices that are lent for writing lie apart: that is the caller's.
#![tactic(auto)]

ghost use Rattle.std.specs.Prelude.{◌≡◌};
ghost use Rattle.definition.specs.Defaults.{defaults};
ghost use Rattle.definition.specs.Outcome.{distance_out, medoid_out, fit_out, BatchMeets, OpenMeets, CloseMeets, BuildMeets};
ghost use Rattle.definition.specs.Outcome.{SearchMeets, LookupMeets, RecordsMeets, ExhaustiveMeets, ReportMeets};
ghost use Rattle.draws.specs.Says.{DrawSays, RowsSays, SeedsSays, OrderSays, PivotsSays};

use definition::{Answer, Candidate, Params, Report};
use draws::Stepped;

// The build parameters with the four defaults of 000. No number.
#[unsafe(no_mangle)]
pub extern "C" fn fjalgrout_defaults() -> Params
    ensures { result ≡ defaults }
{
    Params::defaults()
}

// Part 1. The distance of two vectors. Numbers 1, 11.
#[unsafe(no_mangle)]
pub extern "C" fn fjalgrout_distance(a: &[u8], b: &[u8]) -> Answer
    ensures { result ≡ distance_out (record { first = a.now; second = b.now }) }
{
    metric::distance(a, b)
}

// Part 8. The start. Numbers 1, 2, 12.
#[unsafe(no_mangle)]
pub extern "C" fn fjalgrout_medoid(n: usize, dim: usize, vectors: &[u8], pivots: &[u32]) -> Answer
    ensures { result ≡ medoid_out (record { n = n; dim = dim; vectors = vectors.now; pivots = pivots.now }) }
{
    medoid::medoid(n, dim, vectors, pivots)
}

// Part 6. One batch. Numbers 1 to 10.
#[unsafe(no_mangle)]
pub extern "C" fn fjalgrout_batch(
    n: usize,
    dim: usize,
    vectors: &[u8],
    params: Params,
    start: u32,
    nodes: &[u32],
    seeds: &[u32],
    wide: &mut [u32],
    words: &mut [u32],
    floats: &mut [f32],
) -> Answer
    ensures { BatchMeets
        (record { n = n; dim = dim; vectors = vectors.now; params = params; start = start; nodes = nodes.now; seeds = seeds.now; wide = wide.old; words = words.old; floats = floats.old })
        (record { answer = result; wide = wide.new; words = words.new; floats = floats.new }) }
{
    batch::batch(
        n, dim, vectors, params, start, nodes, seeds, wide, words, floats,
    )
}

// Part 7. Opening rows made wide. Numbers 2, 3, 8.
#[unsafe(no_mangle)]
pub extern "C" fn fjalgrout_open(
    n: usize,
    degree: usize,
    opening: &[u32],
    wide: &mut [u32],
) -> Answer
    ensures { OpenMeets
        (record { n = n; degree = degree; opening = opening.now; wide = wide.old })
        (record { answer = result; wide = wide.new }) }
{
    build::open(n, degree, opening, wide)
}

// Part 7. Wide rows closed. Numbers 1, 2, 3, 5, 8, 10.
#[unsafe(no_mangle)]
pub extern "C" fn fjalgrout_close(
    n: usize,
    dim: usize,
    vectors: &[u8],
    params: Params,
    wide: &[u32],
    closed: &mut [u32],
    words: &mut [u32],
    floats: &mut [f32],
) -> Answer
    ensures { CloseMeets
        (record { n = n; dim = dim; vectors = vectors.now; params = params; wide = wide.now; closed = closed.old; words = words.old; floats = floats.old })
        (record { answer = result; closed = closed.new; words = words.new; floats = floats.new }) }
{
    build::close(n, dim, vectors, params, wide, closed, words, floats)
}

// Part 7. A whole build. Numbers 1 to 10.
#[unsafe(no_mangle)]
pub extern "C" fn fjalgrout_build(
    n: usize,
    dim: usize,
    vectors: &[u8],
    params: Params,
    start: u32,
    order: &[u32],
    seeds: &[u32],
    opening: &[u32],
    wide: &mut [u32],
    closed: &mut [u32],
    words: &mut [u32],
    floats: &mut [f32],
) -> Answer
    ensures { BuildMeets
        (record { n = n; dim = dim; vectors = vectors.now; params = params; start = start; order = order.now; seeds = seeds.now; opening = opening.now; wide = wide.old; closed = closed.old; words = words.old; floats = floats.old })
        (record { answer = result; wide = wide.new; closed = closed.new; words = words.new; floats = floats.new }) }
{
    build::build(
        n, dim, vectors, params, start, order, seeds, opening, wide, closed, words, floats,
    )
}

// Part 9. A search. Numbers 1, 2, 3, 4, 6, 8, 10, 11.
#[unsafe(no_mangle)]
pub extern "C" fn fjalgrout_search(
    n: usize,
    dim: usize,
    vectors: &[u8],
    degree: usize,
    beam: usize,
    k: usize,
    start: u32,
    table: &[u32],
    query: &[u8],
    words: &mut [u32],
    floats: &mut [f32],
    ids: &mut [u32],
    dists: &mut [f32],
) -> Answer
    ensures { SearchMeets
        (record { n = n; dim = dim; vectors = vectors.now; degree = degree; beam = beam; k = k; start = start; table = table.now; query = query.now; words = words.old; floats = floats.old; ids = ids.old; dists = dists.old })
        (record { answer = result; words = words.new; floats = floats.new; ids = ids.new; dists = dists.new }) }
{
    search::search(
        n, dim, vectors, degree, beam, k, start, table, query, words, floats, ids, dists,
    )
}

// Part 9. A search that makes no pass over its table: a word that is no id below n reads as padding. Numbers 1, 2, 3, 4, 6, 8 (its length alone), 10, 11.
#[unsafe(no_mangle)]
pub extern "C" fn fjalgrout_lookup(
    n: usize,
    dim: usize,
    vectors: &[u8],
    degree: usize,
    beam: usize,
    k: usize,
    start: u32,
    table: &[u32],
    query: &[u8],
    words: &mut [u32],
    floats: &mut [f32],
    ids: &mut [u32],
    dists: &mut [f32],
) -> Answer
    ensures { LookupMeets
        (record { n = n; dim = dim; vectors = vectors.now; degree = degree; beam = beam; k = k; start = start; table = table.now; query = query.now; words = words.old; floats = floats.old; ids = ids.old; dists = dists.old })
        (record { answer = result; words = words.new; floats = floats.new; ids = ids.new; dists = dists.new }) }
{
    search::lookup(
        n, dim, vectors, degree, beam, k, start, table, query, words, floats, ids, dists,
    )
}

// Part 9. Whether a table may be searched. Numbers 2 (the limits of n), 3, 8.
#[unsafe(no_mangle)]
pub extern "C" fn fjalgrout_fit(n: usize, degree: usize, table: &[u32]) -> Answer
    ensures { result ≡ fit_out (record { n = n; degree = degree; table = table.now }) }
{
    search::fit(n, degree, table)
}

// 1/13. The k nearest of all entries. Numbers 1, 2, 10, 11, 14.
#[unsafe(no_mangle)]
pub extern "C" fn fjalgrout_exhaustive(
    n: usize,
    dim: usize,
    vectors: &[u8],
    k: usize,
    query: &[u8],
    ids: &mut [u32],
    dists: &mut [f32],
) -> Answer
    ensures { ExhaustiveMeets
        (record { n = n; dim = dim; vectors = vectors.now; k = k; query = query.now; ids = ids.old; dists = dists.old })
        (record { answer = result; ids = ids.new; dists = dists.new }) }
{
    exhaustive::exhaustive(n, dim, vectors, k, query, ids, dists)
}

// 1/13. How many of the nearest a search of each query brings. Numbers 1, 2, 3, 4, 6, 8, 10, 11, 14.
#[unsafe(no_mangle)]
pub extern "C" fn fjalgrout_report(
    n: usize,
    dim: usize,
    vectors: &[u8],
    degree: usize,
    beam: usize,
    k: usize,
    start: u32,
    table: &[u32],
    queries: &[u8],
    words: &mut [u32],
    floats: &mut [f32],
) -> Report
    ensures { ReportMeets
        (record { n = n; dim = dim; vectors = vectors.now; degree = degree; beam = beam; k = k; start = start; table = table.now; queries = queries.now; words = words.old; floats = floats.old })
        (record { report = result; words = words.new; floats = floats.new }) }
{
    recall::report(
        n, dim, vectors, degree, beam, k, start, table, queries, words, floats,
    )
}

// Part 9. A search, and its answers once more as a run of records. Numbers 1, 2, 3, 4, 6, 8, 10, 11.
#[unsafe(no_mangle)]
pub extern "C" fn fjalgrout_records(
    n: usize,
    dim: usize,
    vectors: &[u8],
    degree: usize,
    beam: usize,
    k: usize,
    start: u32,
    table: &[u32],
    query: &[u8],
    words: &mut [u32],
    floats: &mut [f32],
    ids: &mut [u32],
    dists: &mut [f32],
    run: &mut [Candidate],
) -> Answer
    ensures { RecordsMeets
        (record { n = n; dim = dim; vectors = vectors.now; degree = degree; beam = beam; k = k; start = start; table = table.now; query = query.now; words = words.old; floats = floats.old; ids = ids.old; dists = dists.old })
        run.old
        (record { plain = record { answer = result; words = words.new; floats = floats.new; ids = ids.new; dists = dists.new }; records = run.new }) }
{
    search_records::search_records(
        n, dim, vectors, degree, beam, k, start, table, query, words, floats, ids, dists, run,
    )
}

// Part 10. One draw below m, any m. No number.
#[unsafe(no_mangle)]
pub extern "C" fn fjalgrout_draw(state: u64, m: u32) -> Stepped
    ensures { DrawSays state m result }
{
    draws::one_drawn(state, m)
}

// Part 10. The opening rows, a whole closed table. Numbers 2, 3, 8.
#[unsafe(no_mangle)]
pub extern "C" fn fjalgrout_rows(state: u64, n: usize, degree: usize, table: &mut [u32]) -> Stepped
    ensures { RowsSays state n degree table.old result table.new }
{
    draws::rows_drawn(state, n, degree, table)
}

// Part 10. One group of extra seeds. Numbers 2, 6, 7, 10.
#[unsafe(no_mangle)]
pub extern "C" fn fjalgrout_seeds(
    state: u64,
    n: usize,
    start: u32,
    extra: usize,
    out: &mut [u32],
) -> Stepped
    ensures { SeedsSays state n start extra out.old result out.new }
{
    draws::seeds_drawn(state, n, start, extra, out)
}

// Part 10. An order of the n entries. Numbers 2, 10.
#[unsafe(no_mangle)]
pub extern "C" fn fjalgrout_order(state: u64, n: usize, out: &mut [u32]) -> Stepped
    ensures { OrderSays state n out.old result out.new }
{
    draws::order_drawn(state, n, out)
}

// Part 10. The pivots, min(8, n) of them. Numbers 2, 10.
#[unsafe(no_mangle)]
pub extern "C" fn fjalgrout_pivots(state: u64, n: usize, out: &mut [u32]) -> Stepped
    ensures { PivotsSays state n out.old result out.new }
{
    draws::pivots_drawn(state, n, out)
}
