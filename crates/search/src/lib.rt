// Part 9. Search: the greedy walk with the beam raised to at least 1; answers by distance, then the higher id, cut to k. And lookup, the same walk on a
// table whose words nobody looks at before.
#![tactic(auto)]

ghost use Rattle.std.specs.Prelude.{◌≡◌, [], ◌+◌, ◌≤◌, ◌<◌, length};
ghost use Rattle.definition.specs.Outcome.{SearchMeets, cleaned_call, LookupMeets, fit_out};
ghost use Rattle.theory.specs.build.Walks.{epoch_end};
ghost use Rattle.scratch.specs.Lent.{lent};
ghost use Rattle.scratch.specs.Layout.{search_end, search_floats_end};
ghost use Rattle.accepted.specs.Search.{SearchAccepted as Accepted};
ghost use Rattle.checks_number.specs.SearchNumber.{call_of};
ghost use Rattle.marks.specs.Marked.{Marks};
ghost use Rattle.listing.specs.Listed.{pairs};
ghost use Rattle.search.specs.Answering.{Wiped, Walkable, Answered};
ghost use Rattle.search.specs.Statement.{out_of, answer_of, Searched};

use checks_number::Asked;
use definition::Answer;
use greedy::Plan;

// What a walk gives: the epoch that it came to, how many answers there are, and how many entries it expanded and measured.
#[derive(Clone, Copy)]
pub struct Found {
    pub epoch: u32,
    pub count: usize,
    pub expanded: usize,
    pub measured: usize,
}

// One walk and its answers, for a caller who holds the proof that it may be made: no check, and nothing is cleared. The marks must be at most `epoch`, and are
// left so for the epoch that the walk comes to: so one walk may follow another. The walk reads a word that is no entry as padding.
pub fn walk_answers(
    asked: Asked,
    epoch: u32,
    words: &mut [u32],
    ids: &mut [u32],
    dists: &mut [f32],
) -> Found
    requires walkable { Walkable (cleaned_call (call_of asked words.old [] ids.old dists.old)) }
    requires epoch_bound { (epoch + 1 < epoch_end) × Marks asked.n words.old epoch }
    ensures { Answered
        (cleaned_call (call_of asked.entry words.old [] ids.old dists.old))
        epoch words.new (pairs ids.new dists.new) result }
{
    let mut keys = [beam::NONE; 256];
    let most = asked.beam.max(1);
    let p = Plan {
        n: asked.n,
        dim: asked.dim,
        width: asked.degree,
        beam: most,
        keep: false,
    };
    let walked = greedy::greedy(
        words,
        &mut keys,
        asked.vectors,
        asked.query,
        asked.table,
        p,
        epoch,
        asked.start,
    );
    let count = asked.k.min(walked.work);
    listing::list_answers(&keys, walked.work, count, ids, dists);
    Found {
        epoch: walked.epoch,
        count,
        expanded: walked.expanded,
        measured: walked.visited,
    }
}

// The stated room becomes zero.
fn wipe(words: &mut [u32], floats: &mut [f32], n: usize)
    requires { (n ≤ 65536) × (search_end n ≤ length words.old) × (search_floats_end ≤ length floats.old) }
    ensures { Wiped n (lent words.old floats.old) (lent words.new floats.new) }
{
    let w = scratch::search_end(n);
    scratch::clear_front(words, floats, w, scratch::SEARCH_FLOATS);
}

// A lookup that no check refuses, for a caller who holds the proof of it: no check is made, and no pass over the table. The marks are cleared before the walk,
// since what is lent may hold anything, and the room after it.
pub fn lookup_accepted(
    asked: Asked,
    words: &mut [u32],
    floats: &mut [f32],
    ids: &mut [u32],
    dists: &mut [f32],
) -> Found
    requires { Accepted (cleaned_call (call_of asked words.old floats.old ids.old dists.old)) }
    ensures { Searched
        (cleaned_call (call_of asked.entry words.old floats.old ids.old dists.old))
        (out_of (answer_of result) words.new floats.new ids.new dists.new) }
{
    let epoch = marks::first_epoch(words, asked.n);
    let found = walk_answers(asked, epoch, words, ids, dists);
    wipe(words, floats, asked.n);
    found
}

// A search that no check refuses: its table keeps the search rule, so that it is the lookup.
pub fn search_accepted(
    asked: Asked,
    words: &mut [u32],
    floats: &mut [f32],
    ids: &mut [u32],
    dists: &mut [f32],
) -> Answer
    requires { Accepted (call_of asked words.old floats.old ids.old dists.old) }
    ensures { Searched
        (call_of asked.entry words.old floats.old ids.old dists.old)
        (out_of result words.new floats.new ids.new dists.new) }
{
    let found = lookup_accepted(asked, words, floats, ids, dists);
    answers::searched(found.count, found.expanded, found.measured)
}

// The answers of a search in `ids` and `dists`, best first, and how many they are; or the number of the refusal, which is known from lengths and from what is
// only read: nothing is lent for writing before the checks are passed.
pub fn search(
    n: usize,
    dim: usize,
    vectors: &[u8],
    degree: usize,
    beam: usize,
    k: usize,
    start: u32,
    table: &[u32],
    query: &[u8],
    words: &mut [u32],
    floats: &mut [f32],
    ids: &mut [u32],
    dists: &mut [f32],
) -> Answer
    ensures { SearchMeets
        (record {
          n = n;
          dim = dim;
          vectors = vectors.now;
          degree = degree;
          beam = beam;
          k = k;
          start = start;
          table = table.now;
          query = query.now;
          words = words.old;
          floats = floats.old;
          ids = ids.old;
          dists = dists.old;
        })
        (record { answer = result; words = words.new; floats = floats.new; ids = ids.new; dists = dists.new }) }
{
    let asked = Asked {
        n,
        dim,
        vectors,
        degree,
        beam,
        k,
        start,
        table,
        query,
    };
    if let Err(refusal) = checks_number::check_search(
        asked,
        words.len(),
        floats.len(),
        ids.len(),
        dists.len(),
        k,
    ) {
        return answers::refused_for(refusal);
    }
    search_accepted(asked, words, floats, ids, dists)
}

// A search that reads each word of its table that is no entry as padding: safe on every table, and on one that keeps the search rule the same as `search`. It
// makes no pass over the table: it costs the walk, and the room that is cleared. Its number is known from lengths and from what is only read, as in `search`.
pub fn lookup(
    n: usize,
    dim: usize,
    vectors: &[u8],
    degree: usize,
    beam: usize,
    k: usize,
    start: u32,
    table: &[u32],
    query: &[u8],
    words: &mut [u32],
    floats: &mut [f32],
    ids: &mut [u32],
    dists: &mut [f32],
) -> Answer
    ensures { LookupMeets
        (record {
          n = n;
          dim = dim;
          vectors = vectors.now;
          degree = degree;
          beam = beam;
          k = k;
          start = start;
          table = table.now;
          query = query.now;
          words = words.old;
          floats = floats.old;
          ids = ids.old;
          dists = dists.old;
        })
        (record { answer = result; words = words.new; floats = floats.new; ids = ids.new; dists = dists.new }) }
{
    let asked = Asked {
        n,
        dim,
        vectors,
        degree,
        beam,
        k,
        start,
        table,
        query,
    };
    if let Err(refusal) = checks_number::check_lookup(
        asked,
        words.len(),
        floats.len(),
        ids.len(),
        dists.len(),
    ) {
        return answers::refused_for(refusal);
    }
    let brought = lookup_accepted(asked, words, floats, ids, dists);
    answers::searched(brought.count, brought.expanded, brought.measured)
}

// The number that a search would give for its table: a table that is searched many times is asked once, and `lookup` then answers as `search` does.
pub fn fit(n: usize, degree: usize, table: &[u32]) -> Answer
    ensures { result ≡ fit_out (record { n = n; degree = degree; table = table.now }) }
{
    answers::checked(checks_number::check_fit(n, degree, table))
}
