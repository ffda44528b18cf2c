// Part 6, the merge of a batch: chains and seats are made in the scratch, and then each affected row is written anew, in place.
#![tactic(auto)]

ghost use Rattle.std.specs.Prelude.{◌≡◌, ◌+◌, ◌*◌, ◌≤◌, ◌<◌, length};
ghost use Rattle.definition.specs.Batch.{affected, merged};
ghost use Rattle.scratch.specs.Layout.{most_factors};
ghost use Rattle.given.specs.Given.{given, setting, Limits, Wide};
ghost use Rattle.given.specs.Held.{held};
ghost use Rattle.given.specs.Fresh.{merging, listed_in};
ghost use Rattle.batch_merge.specs.Says.{Unlinked, AllLinked, Gatherable, RowReady, RowMerged, MergeReady, Merged};

use given::Ground;

// Heads and seats become 0, the marks before them stay; then the chains through the fresh rows, and the seats of the listed nodes.
fn link(words: &mut [u32], n: usize, nodes: &[u32])
    requires { Unlinked (merging n nodes.now words.old) }
    ensures { AllLinked n nodes.now words.old words.new }
{
    let heads = scratch::heads_at(n);
    let seats = scratch::seats_at(n);
    let links = scratch::links_at(n);
    let entries = nodes.len() * scratch::FRESH_WIDTH;
    scratch::clear_words(&mut words[heads..links]);
    batch_chains::link_entries(words, n, entries);
    batch_chains::seat_nodes(nodes, &mut words[seats..links]);
}

// Whether node i is listed, or an id of a fresh row.
fn is_affected(words: &[u32], n: usize, nodes: &[u32], i: usize) -> bool
    requires i_lt_n { i < n }
    requires gatherable { Gatherable (merging n nodes.now words.now) }
    ensures { result ≡ affected (listed_in (merging n nodes.now words.now)) i }
{
    let seat = scratch::seats_at(n) + i;
    let head = scratch::heads_at(n) + i;
    words[seat] != 0 || words[head] != 0
}

// The row of one affected node: its merged ids, pruned if they are more than the slack.
fn merge_row(
    g: Ground,
    nodes: &[u32],
    i: usize,
    wide: &mut [u32],
    words: &[u32],
    factors: &mut [f32],
)
    requires row_ready { RowReady (given g) (merging g.n nodes.now words.now) i wide.old }
    requires most_factors_in_bounds { most_factors ≤ length factors.old }
    ensures { RowMerged (given g.entry) (merging g.entry.n nodes.now words.now)
        i wide.old wide.new }
{
    let node = table::word_of(i);
    let ids = batch_affected::gather_node(words, wide, g.n, nodes, node, g.slack);
    let mut dists = [0u32; batch_affected::MERGED];
    prune_fit::fit_row(
        g,
        node,
        g.slack,
        wide,
        &ids,
        &mut dists[..ids.len()],
        factors,
    );
}

// Every row in turn: an affected one is written anew, the others keep their words.
fn merge_rows(g: Ground, nodes: &[u32], wide: &mut [u32], words: &[u32], factors: &mut [f32])
    requires most_factors_in_bounds { most_factors ≤ length factors.old }
    requires limits { Limits (given g) }
    requires gatherable { Gatherable (merging g.n nodes.now words.now) }
    requires wide { Wide (given g) wide.old }
    ensures { wide.new ≡ merged (setting (given g.entry)) wide.old
        (listed_in (merging g.entry.n nodes.now words.now)) }
{
    for i in 0..g.n {
        if is_affected(words, g.n, nodes, i) {
            merge_row(g, nodes, i, wide, words, factors);
        }
    }
}

// The merge: the fresh rows lie in `words`, and the wide table is as it was before the batch.
pub fn merge(g: Ground, nodes: &[u32], wide: &mut [u32], words: &mut [u32], floats: &mut [f32])
    requires { MergeReady (given g) nodes.now (held wide.old words.old floats.old) }
    ensures { Merged (given g.entry) nodes.now
        (held wide.old words.old floats.old)
        (held wide.new words.new floats.new) }
{
    link(words, g.n, nodes);
    merge_rows(g, nodes, wide, words, &mut floats[..scratch::FACTORS]);
}
