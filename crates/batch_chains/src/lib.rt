// Part 6: which listed nodes name an id. One chain for each id runs through the entries of the fresh rows, from the last to the first:
// heads[id] and links[entry] hold one more than the entry that comes next, 0 at the end. No counting, no offsets, each entry is touched once.
#![tactic(auto)]

ghost use Rattle.std.specs.Prelude.{◌≡◌, ℕ, ◌+◌, ◌-◌, ◌≤◌, ◌<◌, length, get_or};
ghost use Rattle.arrayvec.specs.ArrayVec.{array_vec_len};
ghost use Rattle.laws.specs.Rising.{Asc};
ghost use Rattle.laws.specs.Words.{Below};
ghost use Rattle.scratch.specs.Layout.{heads_at, links_at, links_end, fresh_at};
ghost use Rattle.given.specs.Fresh.{merging};
ghost use Rattle.batch_chains.specs.Says.{Laid, OneLinked, Linked, Chains, NamingAdded, Seated, place_word};

use arrayvec::ArrayVec;

// The place that a word of heads, links or seats holds: none where it is 0.
pub fn place_in(word: u32) -> Option<usize>
    ensures { place_word result ≡ word }
{
    table::index_of(word).checked_sub(1)
}

// One entry at the front of its id's chain. Padding is no id.
fn link_entry(words: &mut [u32], n: usize, e: usize)
    requires { (n ≤ 65536) × (links_at n + e < links_end n) × (fresh_at n + e < length words.old) }
    ensures { OneLinked n e words.old words.new }
{
    let at = scratch::fresh_at(n) + e;
    let target = table::index_of(words[at]);
    if n <= target {
        return;
    }
    let to = scratch::links_at(n) + e;
    let head = scratch::heads_at(n) + target;
    words[to] = words[head];
    words[head] = (e + 1) as u32;
}

// The chains of all m entries, from heads that are all 0.
pub fn link_entries(words: &mut [u32], n: usize, m: usize)
    requires laid { Laid n m (length words.old) }
    requires by_index { (i : ℕ) → i < n → get_or words.old (heads_at n + i) 0 ≡ 0 }
    ensures { Linked n m words.old words.new }
{
    for e in 0..m {
        link_entry(words, n, e);
    }
}

// All listed nodes whose fresh row names the node, put into a rising list.
pub fn add_naming<const N: usize>(
    words: &[u32],
    n: usize,
    nodes: &[u32],
    node: u32,
    list: &mut ArrayVec<u32, N>,
)
    requires node_lt_n { (node < n) × (length nodes.now ≤ 256) × (array_vec_len list.old + length nodes.now ≤ N) }
    requires chains { Chains (merging n nodes.now words.now) }
    requires rises { Asc list.old.items }
    ensures { NamingAdded (merging n nodes.now words.now) node list.old.items list.new.items }
{
    let own = table::index_of(node);
    let head = scratch::heads_at(n) + own;
    let links = scratch::links_at(n);
    let mut next = place_in(words[head]);
    while let Some(e) = next {
        let p = e / scratch::FRESH_WIDTH;
        batch_ids::add_word(list, nodes[p], node);
        next = place_in(words[links + e]);
    }
}

// One more than the place of each listed node, from slots that are all 0; at a repeated one the first place.
pub fn seat_nodes(nodes: &[u32], slots: &mut [u32])
    requires nodes_len_bound { length nodes.now ≤ 256 }
    requires below { Below (length slots.old) nodes.now }
    requires by_index { (i : ℕ) → i < length slots.old → get_or slots.old i 0 ≡ 0 }
    ensures { Seated nodes.now slots.new }
{
    for (p, node) in nodes.iter().enumerate().rev() {
        let own = table::index_of(*node);
        slots[own] = (p + 1) as u32;
    }
}
