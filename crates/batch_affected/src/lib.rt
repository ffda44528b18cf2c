// Part 6, the merge: the ids of one affected node.
#![tactic(auto)]

ghost use Rattle.std.specs.Prelude.{◌≡◌, ◌+◌, ◌-◌, ◌*◌, ◌≤◌, ◌<◌, length};
ghost use Rattle.definition.specs.Tables.{row};
ghost use Rattle.laws.specs.Listed.{fresh_width};
ghost use Rattle.scratch.specs.Layout.{widest, fresh_at};
ghost use Rattle.given.specs.Fresh.{merging};
ghost use Rattle.batch_chains.specs.Says.{place_word};
ghost use Rattle.batch_affected.specs.Base.{base_words};
ghost use Rattle.batch_affected.specs.Says.{Ready, Gathered};

use arrayvec::ArrayVec;

// How many merged ids a node can have: the words of its base, and the listed nodes.
pub const MERGED: usize = 340;

// The base of a node: its fresh row if it was listed, otherwise its row of the wide table. `seat` is its place among the listed.
pub fn base<'a>(
    words: &'a [u32],
    wide: &'a [u32],
    n: usize,
    seat: Option<usize>,
    node: usize,
    slack: usize,
) -> &'a [u32]
    requires n_bound { (n ≤ 65536) × (node < n) × (slack ≤ widest) × (place_word seat ≤ 256) }
    requires fresh_width_in_bounds { (fresh_at n + place_word seat * fresh_width ≤ length words.now) × (node * slack + slack ≤ length wide.now) }
    ensures { result.now ≡ base_words seat n words.now (row slack wide.now node) }
{
    match seat {
        Some(p) => {
            let a = scratch::fresh_row_at(n, p);
            &words[a..a + scratch::FRESH_WIDTH]
        }
        None => {
            let a = node * slack;
            &wide[a..a + slack]
        }
    }
}

// The merged ids of one node, rising.
pub fn gather_node(
    words: &[u32],
    wide: &[u32],
    n: usize,
    nodes: &[u32],
    node: u32,
    slack: usize,
) -> ArrayVec<u32, MERGED>
    requires node_lt_n { (node < n) × (slack ≤ widest) × (node * slack + slack ≤ length wide.now) }
    requires ready { Ready (merging n nodes.now words.now) }
    ensures { Gathered (merging n nodes.now words.now) wide.now slack node result.items }
{
    let own = table::index_of(node);
    let at = scratch::seats_at(n) + own;
    let seat = batch_chains::place_in(words[at]);
    let row = base(words, wide, n, seat, own, slack);
    let mut ids = ArrayVec::new();
    batch_ids::add_row(row, node, &mut ids);
    batch_chains::add_naming(words, n, nodes, node, &mut ids);
    ids
}
