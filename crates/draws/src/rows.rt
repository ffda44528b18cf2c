// Opening rows: a whole closed table.

ghost use Rattle.std.specs.Prelude.{◌≡◌, ◌+◌, ◌-◌, ◌*◌, ◌<◌, ◌≤◌, min, length};
ghost use Rattle.definition.specs.Lists.{upto};
ghost use Rattle.definition.specs.Tables.{padded};
ghost use Rattle.definition.specs.Draws.{row_ids, rows_from};
ghost use Rattle.draws.specs.Says.{Leaves};

use super::numbers::wrapped;
use super::step::{advance, drawn};
use table::pad_from;

// The ids of opening row i of n above 1 entries, from the draw r, as many as there is room for: `step` is (r + j) mod (n-1).
pub fn write_ids(n: u32, i: u32, r: u32, ids: &mut [u32])
    requires { (1 < n) × (n ≤ 65536) × (i < n) × (r < n - 1) }
    ensures { ids.new ≡ row_ids n i r (upto (length ids.old)) }
{
    let mut step = r;
    for id in ids.iter_mut() {
        *id = wrapped(i + 1 + step, n);
        step = wrapped(step + 1, n - 1);
    }
}

// Opening row i: its ids, then padding.
pub fn write_row(n: u32, i: u32, r: u32, row: &mut [u32])
    requires { (1 < n) × (n ≤ 65536) × (i < n) × (r < n - 1) }
    ensures { row.new ≡ padded (length row.old) (row_ids n i r (upto (min (length row.old) (n - 1)))) }
{
    let many = row.len().min((n - 1) as usize);
    write_ids(n, i, r, &mut row[..many]);
    pad_from(row, many);
}

// The rows of a table of n above 1 entries, i rising: the state after them.
pub fn fill_rows(state: u64, n: usize, degree: usize, table: &mut [u32]) -> u64
    requires { (1 < n) × (n ≤ 65536) × (length table.old ≡ n * degree) }
    ensures { Leaves (rows_from n degree 0 n state) table.old result table.new }
{
    let entries = n as u32;
    let mut s = state;
    // By hand: rows may have no words by the contract, which `chunks_exact_mut` does not take.
    for i in 0..n {
        s = advance(s);
        let r = drawn(entries - 1, s);
        let at = i * degree;
        write_row(entries, i as u32, r, &mut table[at..at + degree]);
    }
    s
}
