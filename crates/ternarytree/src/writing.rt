// Rows from trees: the letters of a climb, written into packed words.

ghost use Rattle.std.specs.Prelude.{◌≡◌, ℕ, ◌+◌, ◌*◌, ◌/◌, ◌<◌, ◌≤◌, length};
ghost use Rattle.algebra.specs.Modes.{Modes, vacuum_rule};
ghost use Rattle.trees.specs.Trees.{Tree};
ghost use Rattle.trees.specs.Paths.{letter_at};
ghost use Rattle.ternarytree.specs.Tables.{nth, AtMost, AllBelow, Columns, Parents, Links, Slots, flipped, lettered};
ghost use Rattle.ternarytree.specs.Tables.{Fits, Added, RowWritten, RowsWritten, StoredX};

use crate::climbing::Routes;
use crate::tables::Tables;

// Flips column j of a row.
pub fn flip(row: &mut [u64], j: usize)
    requires { j / 64 < length row.old }
    ensures { row.new ≡ flipped row.old j }
{
    row[j / 64] ^= 1u64 << (j % 64);
}

// Puts letter l, 0 for X, 1 for Y and 2 for Z, at column j of a row that has none there; its part in the phase.
pub fn put_letter(l: usize, j: usize, x: &mut [u64], z: &mut [u64]) -> u8
    requires { (l < 3) × (j / 64 < length x.old) × (j / 64 < length z.old) }
    ensures { (result ≡ (letter_at l 0).p) × (x.new ≡ lettered (letter_at l 1).x x.old j) × (z.new ≡ lettered (letter_at l 1).z z.old j) }
{
    match l {
        0 => {
            flip(x, j);
            0
        }
        1 => {
            flip(x, j);
            flip(z, j);
            1
        }
        _ => {
            flip(z, j);
            0
        }
    }
}

// Adds the row of slot k to an X part and a Z part; its phase.
pub fn add_row(
    routes: &Routes,
    columns: &[usize; 256],
    k: usize,
    x: &mut [u64],
    z: &mut [u64],
) -> u8
    requires { (k < 3 * routes.now.n) × Fits routes.now.n columns.now x.old × Fits routes.now.n columns.now z.old }
    ensures { (t : Tree) → Links t routes.now.n routes.now.ways → Columns t routes.now.n columns.now
        → Added t k result x.old z.old x.new z.new }
{
    let mut p = 0;
    let mut i = k / 3;
    let mut l = k % 3;
    for _ in 0..routes.n + 1 {
        p = (p + put_letter(l, columns[i], x, z)) % 4;
        let Some(way) = routes.ways[i] else {
            return p;
        };
        i = way.node as usize;
        l = way.letter as usize;
    }
    p
}

// Writes the row of slot k to an X part and a Z part; its phase.
pub fn put_row(
    routes: &Routes,
    columns: &[usize; 256],
    k: usize,
    x: &mut [u64],
    z: &mut [u64],
) -> u8
    requires { (k < 3 * routes.now.n) × Fits routes.now.n columns.now x.old × Fits routes.now.n columns.now z.old }
    ensures { (t : Tree) → Links t routes.now.n routes.now.ways → Columns t routes.now.n columns.now
        → RowWritten t k result x.old z.old x.new z.new }
{
    x.fill(0);
    z.fill(0);
    add_row(routes, columns, k, x, z)
}

// Writes the rows of the leaves, each part of a row in w words, and their phases.
pub fn put_rows(
    tables: &Tables,
    columns: &[usize; 256],
    w: usize,
    x: &mut [u64],
    z: &mut [u64],
    phases: &mut [u8],
)
    requires { AllBelow tables.now.n (3 * tables.now.n) tables.now.parents
        × ((i : ℕ) → i < tables.now.n → nth columns.now i / 64 < w)
        × AllBelow (2 * tables.now.n) (3 * tables.now.n) tables.now.slots
        × (2 * tables.now.n * w ≤ length x.old) × (2 * tables.now.n * w ≤ length z.old) × (2 * tables.now.n ≤ length phases.old) }
    ensures { (t : Tree) (slot : ℕ → ℕ) → Parents t tables.now.n tables.now.parents → Columns t tables.now.n columns.now
        → Slots slot tables.now.n tables.now.slots
        → RowsWritten t slot (2 * tables.now.n) w x.old z.old phases.old x.new z.new phases.new }
{
    let routes = Routes::of(tables);
    let rows = 2 * tables.n;
    for m in 0..rows {
        let a = m * w;
        let e = a + w;
        let Some(k) = tables.slots[m] else {
            continue; // no row of a tree that is built is without a slot
        };
        phases[m] = put_row(&routes, columns, k as usize, &mut x[a..e], &mut z[a..e]);
    }
}

// Whether the rows meet the vacuum rule at the all-zero vacuum: in each mode the X parts agree and d is 0.
pub fn vacuum_met(n: usize, w: usize, x: &[u64], phases: &[u8]) -> bool
    requires { (n ≤ 256) × (2 * n * w ≤ length x.now) × (2 * n ≤ length phases.now) × AtMost (2 * n) 3 (nth phases.now) }
    ensures { (m : Modes) → StoredX m n w x.now phases.now → result ≡ vacuum_rule m 0 }
{
    for i in 0..n {
        let k = 2 * i;
        let lo = dense_block::get_term(x, w, k);
        let hi = dense_block::get_term(x, w, k + 1);
        if !dense_block::same(lo, hi) || (phases[k] + 1) % 4 != phases[k + 1] {
            return false;
        }
    }
    true
}
