// Part 9 and 3/13. The answers of a query, from keys that rise: by distance, then the higher id. A distance becomes an f32 here and nowhere before; a cast
// would ask that it is small, the nearest f32 asks nothing.
#![tactic(auto)]

ghost use Rattle.std.specs.Prelude.{◌<◌, ◌≤◌, map, length, take};
ghost use Rattle.definition.specs.Search.{ranked};
ghost use Rattle.beam.specs.Keys.{Rising};
ghost use Rattle.listing.specs.Listed.{pairs, items_in, LowIds, mirrored_item, Listed};
ghost use Rattle.listing.specs.Runs.{RunEnd, RunListed};

// The end of the run of equal distances that begins at `first`.
fn run_end(keys: &[u64], first: usize, len: usize) -> usize
    requires { (first < len) × (len ≤ length keys.now) }
    ensures { RunEnd keys.now len first result }
{
    let dist = beam::dist_of(keys[first]);
    for end in first + 1..len {
        if beam::dist_of(keys[end]) != dist {
            return end;
        }
    }
    len
}

// The places from `first` to `last`, with the run that ends at `end` read from there: its highest id first.
fn list_run(keys: &[u64], first: usize, end: usize, last: usize, ids: &mut [u32], dists: &mut [f32])
    requires first_le_last { (first ≤ last) × (last ≤ end) × (end ≤ length keys.now) }
    requires last_in_bounds { (last ≤ length ids.old) × (last ≤ length dists.old) }
    ensures { RunListed keys.now first end last
        (pairs ids.old dists.old) (pairs ids.new dists.new) }
{
    for i in first..last {
        let at = first + end - 1 - i;
        let key = keys[at];
        ids[i] = beam::id_of(key);
        dists[i] = std::num::nearest_u32_to_f32(beam::dist_of(key));
    }
}

// The best `count` of the first `len` keys, a beam's, over the front of the two outputs. A beam has the lower id first among equal distances, so each run of
// these is turned round; of a run that the cut divides the higher ids are listed.
pub fn list_answers(keys: &[u64], len: usize, count: usize, ids: &mut [u32], dists: &mut [f32])
    requires rising { Rising keys.now }
    requires count_le_len { (count ≤ len) × (len ≤ length keys.now) × (count ≤ length ids.old) × (count ≤ length dists.old) }
    ensures { Listed (ranked count (items_in keys.now len))
        (pairs ids.old dists.old) (pairs ids.new dists.new) }
{
    let mut first = 0;
    while first < count {
        let end = run_end(keys, first, len);
        list_run(keys, first, end, end.min(count), ids, dists);
        first = end;
    }
}

// The first `count` keys, whose ids count from the last of n entries back and so stand in the answers' own order, over the front of the two outputs.
pub fn list_mirrored(keys: &[u64], n: usize, count: usize, ids: &mut [u32], dists: &mut [f32])
    requires n_nonzero { (0 < n) × (n ≤ 65536) }
    requires count_in_bounds { (count ≤ length keys.now) × (count ≤ length ids.old) × (count ≤ length dists.old) }
    requires low_ids { LowIds keys.now count n }
    ensures { Listed (map (mirrored_item n) (take count keys.now))
        (pairs ids.old dists.old) (pairs ids.new dists.new) }
{
    let last = (n - 1) as u32;
    for (i, key) in keys[..count].iter().enumerate() {
        ids[i] = last - beam::id_of(*key);
        dists[i] = std::num::nearest_u32_to_f32(beam::dist_of(*key));
    }
}
