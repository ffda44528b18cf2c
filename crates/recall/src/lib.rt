// 1/13. Recall in plain figures: a search and an exhaustive search of each query, and how many of the true nearest the searches brought. The marks are cleared
// once for all queries. A search leaves none above its epoch, so that they serve once more: the nearest are marked with the next epoch, and of the search's
// answers those are counted whose mark it is. So no list is held against another, and nothing here knows in what order answers stand.
#![tactic(auto)]

ghost use Rattle.std.specs.Prelude.{◌≡◌, [], ◌+◌, ◌<◌, length};
ghost use Rattle.definition.specs.Outcome.{query_count, asked_each, report_done, ReportMeets};
ghost use Rattle.theory.specs.build.Walks.{epoch_end};
ghost use Rattle.accepted.specs.Recall.{ReportAccepted};
ghost use Rattle.marks.specs.Marked.{Marks};
ghost use Rattle.recall.specs.Marks.{Places, Unmarked, MarksOf, Counted, CountedBoth};
ghost use Rattle.recall.specs.Asking.{call_of, query_call, out_of, QueryAccepted, QueriesAccepted, Recalled, Tallied};

use checks_number::Asked;
use definition::Report;

// What a report asks of each query: the k nearest of n entries of dim bytes, by a search that begins at `start`, on a table of rows of `degree` words.
#[derive(Clone, Copy)]
struct Terms {
    n: usize,
    dim: usize,
    degree: usize,
    beam: usize,
    k: usize,
    start: u32,
}

// What a query gives: the epoch that it came to, and how many of its nearest were found.
#[derive(Clone, Copy)]
struct Brought {
    epoch: u32,
    hits: usize,
}

// How many of the nearest were found, and for how many queries all.
#[derive(Clone, Copy)]
struct Tally {
    found: usize,
    whole: usize,
}

// The epoch as the mark of each of the ids.
fn mark(words: &mut [u32], ids: &[u32], epoch: u32)
    requires unmarked { Unmarked epoch words.old }
    requires places { Places ids.now (length words.old) }
    ensures { MarksOf epoch ids.now words.new }
{
    for &id in ids {
        words[id as usize] = epoch;
    }
}

// How many of the ids have the epoch as their mark. A number is added for each, so that nothing branches on it.
fn marked(words: &[u32], ids: &[u32], epoch: u32) -> usize
    requires { Places ids.now (length words.now) }
    ensures { Counted epoch words.now ids.now result }
{
    let mut sum = 0;
    for &id in ids {
        sum += usize::from(words[id as usize] == epoch);
    }
    sum
}

// How many of the ids are among the nearest. The marks stay: none is above the epoch.
fn in_both(words: &mut [u32], ids: &[u32], nearest: &[u32], epoch: u32) -> usize
    requires unmarked { Unmarked epoch words.old }
    requires places { Places ids.now (length words.old) }
    requires places_2 { Places nearest.now (length words.old) }
    ensures { CountedBoth epoch ids.now nearest.now words.new result }
{
    mark(words, nearest, epoch);
    marked(words, ids, epoch)
}

// One query: how many of its nearest the search brings. The marks must be at most `epoch`, and are left so for the epoch that the query comes to, so that
// one query may follow another. `ids` and `dists` are room for the search's answers, `near` and `apart` for the nearest.
fn one_query(
    asked: Asked,
    epoch: u32,
    words: &mut [u32],
    ids: &mut [u32],
    dists: &mut [f32],
    near: &mut [u32],
    apart: &mut [f32],
) -> Brought
    requires query_accepted { QueryAccepted (query_call asked words.old) ids.old dists.old near.old apart.old }
    requires epoch_bound { (epoch + 2 < epoch_end) × Marks asked.n words.old epoch }
    ensures { Recalled (query_call asked.entry words.old) epoch words.new result }
{
    let n = asked.n;
    let found = search::walk_answers(asked, epoch, words, ids, dists);
    let nearest = exhaustive::exhaustive_accepted(
        n,
        asked.dim,
        asked.vectors,
        asked.k,
        asked.query,
        near,
        apart,
    );
    let next = marks::next_epoch(found.epoch);
    let hits = in_both(
        &mut words[..n],
        &ids[..found.count],
        &near[..nearest.count],
        next,
    );
    Brought { epoch: next, hits }
}

// All queries, one after another: what the searches bring of the nearest, and for how many queries that is all of `each`. The marks are cleared once, since
// what is lent may hold anything; then each query goes on from the epoch that the one before it came to.
fn all_queries(
    a: Terms,
    vectors: &[u8],
    table: &[u32],
    queries: &[u8],
    each: usize,
    words: &mut [u32],
) -> Tally
    requires queries_accepted { QueriesAccepted (call_of a vectors.now table.now queries.now words.old []) }
    requires each_value { each ≡ asked_each (call_of a vectors.now table.now queries.now words.old []) }
    ensures { Tallied
        (call_of a vectors.now table.now queries.now words.old [])
        (query_count (call_of a vectors.now table.now queries.now words.old [])) words.new result }
{
    let mut ids = [0u32; 256];
    let mut dists = [0.0f32; 256];
    let mut near = [0u32; 256];
    let mut apart = [0.0f32; 256];
    let mut epoch = marks::first_epoch(words, a.n);
    let mut found = 0;
    let mut whole = 0;
    for query in queries.chunks_exact(a.dim) {
        let asked = Asked {
            n: a.n,
            dim: a.dim,
            vectors,
            degree: a.degree,
            beam: a.beam,
            k: a.k,
            start: a.start,
            table,
            query,
        };
        let brought = one_query(
            asked, epoch, words, &mut ids, &mut dists, &mut near, &mut apart,
        );
        let hits = brought.hits;
        epoch = brought.epoch;
        found += hits;
        whole += usize::from(hits == each);
    }
    Tally { found, whole }
}

// A report that no check refuses: with no queries all its figures are 0. Its room is cleared once, at the end.
fn report_accepted(
    a: Terms,
    vectors: &[u8],
    table: &[u32],
    queries: &[u8],
    words: &mut [u32],
    floats: &mut [f32],
) -> Report
    requires { ReportAccepted (call_of a vectors.now table.now queries.now words.old floats.old) }
    ensures { out_of result words.new floats.new
        ≡ report_done (call_of a vectors.now table.now queries.now words.old floats.old) }
{
    let n = a.n;
    let count = queries.len() / a.dim;
    let each = a.k.min(n);
    let t = all_queries(a, vectors, table, queries, each, words);
    let w = scratch::report_end(n);
    scratch::clear_front(words, floats, w, scratch::REPORT_FLOATS);
    answers::reported(count, count * each, t.found, t.whole)
}

// How many of the true nearest the searches of all queries bring, in plain figures; or the number of the refusal, which is known from lengths and from what is
// only read: nothing is lent for writing before the checks are passed.
pub fn report(
    n: usize,
    dim: usize,
    vectors: &[u8],
    degree: usize,
    beam: usize,
    k: usize,
    start: u32,
    table: &[u32],
    queries: &[u8],
    words: &mut [u32],
    floats: &mut [f32],
) -> Report
    ensures { ReportMeets
        (record {
          n = n;
          dim = dim;
          vectors = vectors.now;
          degree = degree;
          beam = beam;
          k = k;
          start = start;
          table = table.now;
          queries = queries.now;
          words = words.old;
          floats = floats.old;
        })
        (record { report = result; words = words.new; floats = floats.new }) }
{
    if let Err(refusal) = checks_recall::check_report(
        n,
        dim,
        vectors,
        degree,
        beam,
        k,
        start,
        table,
        queries.len(),
        words.len(),
        floats.len(),
    ) {
        return answers::refused_report_for(refusal);
    }
    let a = Terms {
        n,
        dim,
        degree,
        beam,
        k,
        start,
    };
    report_accepted(a, vectors, table, queries, words, floats)
}
