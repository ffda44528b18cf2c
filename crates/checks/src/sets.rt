// Lists of ids: 7, 9 and 12.

ghost use Rattle.std.specs.Prelude.{◌≡◌, ◌*◌, ◌≤◌, not, length};
ghost use Rattle.definition.specs.Lists.{groups, each};
ghost use Rattle.definition.specs.Refusals.{good_group, bad_seeds, bad_nodes, bad_order, bad_pivots};
ghost use Rattle.checks.specs.Below.{all_below};

use super::limits::bad_extra;
use checks_repeats::{has_repeat, is_among};

// Whether every id is below n. There is no way out of the loop, so that several ids are looked at at once.
pub fn all_below(n: usize, ids: &[u32]) -> bool
    requires { n ≤ 65536 }
    ensures { result ≡ all_below n ids.now }
{
    let end = n as u32;
    let mut found = false;
    for &id in ids {
        found |= end <= id;
    }
    !found
}

// 9, the nodes of a batch
pub fn bad_nodes(n: usize, nodes: &[u32]) -> bool
    requires { n ≤ 65536 }
    ensures { result ≡ bad_nodes n nodes.now }
{
    256 < nodes.len() || !all_below(n, nodes) || has_repeat(nodes)
}

// 9, the order of a whole build: a permutation of 0..n-1
pub fn bad_order(n: usize, order: &[u32]) -> bool
    requires { n ≤ 65536 }
    ensures { result ≡ bad_order n order.now }
{
    order.len() != n || !all_below(n, order) || has_repeat(order)
}

// 12
pub fn bad_pivots(n: usize, pivots: &[u32]) -> bool
    requires { n ≤ 65536 }
    ensures { result ≡ bad_pivots n pivots.now }
{
    pivots.is_empty() || 8 < pivots.len() || !all_below(n, pivots)
}

// Whether a seed of the group is not below n, equals the start, or stands again further on.
pub fn bad_group(n: usize, start: u32, group: &[u32]) -> bool
    ensures { result ≡ not (good_group n start group.now) }
{
    for (i, &s) in group.iter().enumerate() {
        if n <= s as usize || s == start || is_among(s, &group[i + 1..]) {
            return true;
        }
    }
    false
}

// 7. The length is compared by a division: the product of count and extra may be too large.
pub fn bad_seeds(n: usize, extra: usize, start: u32, count: usize, seeds: &[u32]) -> bool
    ensures { result ≡ bad_seeds n extra start count seeds.now }
{
    if bad_extra(n, extra) {
        return true;
    }
    if extra == 0 {
        return !seeds.is_empty();
    }
    let all = seeds.len();
    let mut groups = seeds.chunks_exact(extra);
    all % extra != 0 || all / extra != count || groups.any(|group| bad_group(n, start, group))
}
