// The answers of a search also as a lent run of records, beside its two outputs. The copy of them is a function of its own, so that its loop is proved apart
// from the search.
#![tactic(auto)]

ghost use Rattle.std.specs.Prelude.{◌≡◌, ◌≤◌, length};
ghost use Rattle.definition.specs.Outcome.{RecordsMeets};
ghost use Rattle.search_records.specs.Copied.{copied};

use checks_number::Asked;
use definition::{Answer, Candidate};

// The first `count` records become those of the two parallel slices; the others stay.
fn copy_run(records: &mut [Candidate], ids: &[u32], dists: &[f32], count: usize)
    requires { (count ≤ length records.old) × ((count ≤ length ids.now) × (count ≤ length dists.now)) }
    ensures { records.new ≡ copied ids.now dists.now count records.old }
{
    // By hand: zipped with `records.iter_mut()` it does not prove, since nothing is known then of what the loop wrote.
    for i in 0..count {
        records[i] = Candidate {
            id: ids[i],
            distance: dists[i],
        };
    }
}

// A search, and its answers once more as records, best first. Its number is known from lengths and from what is only read: nothing is lent for writing
// before the checks are passed.
pub fn search_records(
    n: usize,
    dim: usize,
    vectors: &[u8],
    degree: usize,
    beam: usize,
    k: usize,
    start: u32,
    table: &[u32],
    query: &[u8],
    words: &mut [u32],
    floats: &mut [f32],
    ids: &mut [u32],
    dists: &mut [f32],
    records: &mut [Candidate],
) -> Answer
    ensures { RecordsMeets
        (record { n = n; dim = dim; vectors = vectors.now; degree = degree; beam = beam; k = k; start = start; table = table.now; query = query.now; words = words.old; floats = floats.old; ids = ids.old; dists = dists.old })
        records.old
        (record { plain = record { answer = result; words = words.new; floats = floats.new; ids = ids.new; dists = dists.new }; records = records.new }) }
{
    let asked = Asked {
        n,
        dim,
        vectors,
        degree,
        beam,
        k,
        start,
        table,
        query,
    };
    if let Err(refusal) = checks_number::check_search(
        asked,
        words.len(),
        floats.len(),
        ids.len(),
        dists.len(),
        records.len(),
    ) {
        return answers::refused_for(refusal);
    }
    let a = search::search_accepted(asked, words, floats, ids, dists);
    let count = a.count;
    copy_run(records, ids, dists, count);
    a
}
