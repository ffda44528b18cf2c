// Part 7 on accepted input: opening rows become rows of the wide table, and its rows become those of the closed one.
#![tactic(auto)]

ghost use Rattle.std.specs.Prelude.{◌≡◌, ◌+◌, ◌*◌, ◌<◌, length};
ghost use Rattle.definition.specs.Build.{open', close};
ghost use Rattle.given.specs.Given.{given, setting};
ghost use Rattle.build_rows.specs.Says.{opened, OpenReady, RowCloses, RowClosed, CloseReady};

use given::Ground;

// Opening rows copied to wide ones: a row's words, and then padding up to the slack.
pub fn open_rows(n: usize, degree: usize, slack: usize, opening: &[u32], wide: &mut [u32])
    requires { OpenReady (opened n degree slack opening.now) (length wide.old) }
    ensures { wide.new ≡ open' n degree opening.now }
{
    // By hand: the contract lets the degree be 0, and there are no chunks of 0 words.
    for i in 0..n {
        let a = i * degree;
        let e = a + degree;
        table::put_row(wide, i, slack, &opening[a..e]);
    }
}

// The row of one node in the closed table. Pruning sorts by distance, then id, so that ids in rising order give no other row.
fn close_row(g: Ground, i: usize, wide: &[u32], closed: &mut [u32], factors: &mut [f32])
    requires { RowCloses (given g) i wide.now (length closed.old) (length factors.old) }
    ensures { RowClosed (given g.entry) i wide.now closed.old closed.new }
{
    let mut ids = [0u32; scratch::WIDEST];
    let mut dists = [0u32; scratch::WIDEST];
    let slack = g.slack;
    let node = table::word_of(i);
    let a = i * slack;
    let e = a + slack;
    let count = table::copy_ids(&wide[a..e], &mut ids);
    prune_fit::fit_row(
        g,
        node,
        g.params.degree,
        closed,
        &ids[..count],
        &mut dists[..count],
        factors,
    );
}

// Every row of the wide table into its stretch of the closed one: pruned if it is longer than the degree, otherwise as it is.
pub fn close_rows(g: Ground, wide: &[u32], closed: &mut [u32], factors: &mut [f32])
    requires { CloseReady (given g) wide.now (length closed.old) (length factors.old) }
    ensures { closed.new ≡ close (setting (given g.entry)) wide.now }
{
    for i in 0..g.n {
        close_row(g, i, wide, closed, factors);
    }
}
