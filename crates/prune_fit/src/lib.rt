// Part 6, the last step of the merge: the ids of a node become its row.
#![tactic(auto)]

ghost use Rattle.std.specs.Prelude.{◌≡◌, ℕ, ◌+◌, ◌*◌, ◌≤◌, ◌<◌, length, get_or};
ghost use Rattle.definition.specs.Metric.{between};
ghost use Rattle.metric.specs.Exact.{VectorIn, Distances};
ghost use Rattle.scratch.specs.Layout.{most_factors};
ghost use Rattle.given.specs.Given.{given};
ghost use Rattle.prune_fit.specs.Fits.{Fittable, Fitted};

use given::Ground;

// The distance of each id from the node, whose vector is lent once for all.
fn measure(g: Ground, node: usize, ids: &[u32], dists: &mut [u32])
    requires dim_bound { (g.dim ≤ 256) × (length ids.now ≡ length dists.old) }
    requires vector_in { VectorIn g.dim g.vectors.now node }
    requires by_index { (k : ℕ) → k < length ids.now → VectorIn g.dim g.vectors.now (get_or ids.now k 0) }
    ensures { Distances (between g.entry.dim g.entry.vectors.now node) ids.now dists.new }
{
    metric::from_query_each(g.dim, g.vectors, g.vector(node), ids, dists);
}

// The ids of a node become its row of a table of `width` words a row: as they are if there are at most so many, otherwise pruned.
pub fn fit_row(
    g: Ground,
    node: u32,
    width: usize,
    table: &mut [u32],
    ids: &[u32],
    dists: &mut [u32],
    factors: &mut [f32],
)
    requires fittable { Fittable (given g) node width ids.now }
    requires dists_len { (length dists.old ≡ length ids.now) × (most_factors ≤ length factors.old) × (node * width + width ≤ length table.old) }
    ensures { Fitted (given g.entry) node width ids.now table.old table.new }
{
    let place = table::index_of(node);
    let m = ids.len();
    if m <= width {
        table::put_row(table, place, width, ids);
        return;
    }
    measure(g, place, ids, dists);
    prune::prune_into(
        table,
        place,
        width,
        g.vectors,
        g.dim,
        ids,
        dists,
        node,
        factors,
        g.params.degree,
        g.params.alpha,
    );
}
