// Trees built: from tables to rows, phases and the all-zero vacuum, and from flatpacks and names to tables.

ghost use Rattle.std.specs.Prelude.{◌≡◌, List, Bool, false, ℕ, ◌*◌, ◌/◌, ◌<◌, ◌≤◌, length};
ghost use Rattle.refusal.specs.Table.{first_of};
ghost use Rattle.dense_block.specs.Words.{words_for};
ghost use Rattle.trees.specs.Trees.{Tree};
ghost use Rattle.trees.specs.Leaves.{slot_of, rows};
ghost use Rattle.trees.specs.Named.{named_tree};
ghost use Rattle.tree_sizes.specs.Sizes.{qubit_at};
ghost use Rattle.ternarytree.specs.Building.{tree_checks};
ghost use Rattle.ternarytree.specs.Tables.{AllBelow, Slots, verdict, rows_answer, Ready, TreeBuilt};
ghost use Rattle.ternarytree.specs.Reading.{read, Filled};

use crate::entries::Entries;
use crate::tables::Tables;
use crate::{chains, climbing, planting, reading, writing};
use refusal::Refusal;
use trees::Named;

// Writes the rows of a tree that passed its tests, from its tables, and the all-zero vacuum. If the rows break the vacuum
// rule there: 13, and zeros over all.
pub fn build_rows(
    tables: &Tables,
    columns: &[usize; 256],
    w: usize,
    x: &mut [u64],
    z: &mut [u64],
    phases: &mut [u8],
    vacuum: &mut [u64],
) -> Result<(), Refusal>
    requires { (w ≤ 4)
        × ((leaves : Bool) × (t : Tree) × Ready leaves t tables.now.n w tables.now.parents columns.now tables.now.slots)
        × (2 * tables.now.n * w ≤ length x.old) × (2 * tables.now.n * w ≤ length z.old) × (2 * tables.now.n ≤ length phases.old) }
    ensures { (leaves : Bool) (t : Tree) → Ready leaves t tables.now.n w tables.now.parents columns.now tables.now.slots
        → TreeBuilt (rows_answer (rows leaves t)) w (rows leaves t) x.old z.old phases.old vacuum.old result x.new z.new phases.new vacuum.new }
{
    writing::put_rows(tables, columns, w, x, z, phases);
    dense_block::clear(vacuum, w);
    if writing::vacuum_met(tables.n, w, x, phases) {
        return Ok(());
    }
    let rows = 2 * tables.n;
    dense_block::clear(x, rows * w);
    dense_block::clear(z, rows * w);
    phases[..rows].fill(0);
    Err(Refusal::Vacuum)
}

// The slot of each row's leaf, in the table that has the slots of the leaves that slots name.
pub fn leaf_slots(leaves: bool, children: &[Option<u16>; 768], tables: &mut Tables)
    requires { AllBelow (3 * tables.old.n) tables.old.n children.now }
    ensures nodes { tables.new.n ≡ tables.old.n }
    ensures parents { tables.new.parents ≡ tables.old.parents }
    ensures slots { (t : Tree) → Filled t tables.old.n tables.old.parents children.now tables.old.slots
        → verdict leaves t ≡ 0 → Slots (slot_of leaves t) tables.old.n tables.new.slots }
{
    if !leaves {
        chains::naive_slots(children, tables);
    }
}

// Builds a flatpack whose qubits lie in w words: the first test that it fails, or its rows.
pub fn build_flat(
    e: Entries,
    w: usize,
    x: &mut [u64],
    z: &mut [u64],
    phases: &mut [u8],
    vacuum: &mut [u64],
) -> Result<(), Refusal>
    requires { (w ≤ 4) × ((i : ℕ) → i < e.n → qubit_at e.numbers.now i / 64 < w)
        × (2 * e.n * w ≤ length x.old) × (2 * e.n * w ≤ length z.old) × (2 * e.n ≤ length phases.old) }
    ensures { TreeBuilt (first_of (tree_checks e.entry.leaves (read e.entry))) w (rows e.entry.leaves (read e.entry))
        x.old z.old phases.old vacuum.old result x.new z.new phases.new vacuum.new }
{
    let mut tables = Tables::of(e.n);
    let mut children = [None; 768];
    climbing::check_tree(e, &mut tables, &mut children)?;
    leaf_slots(e.leaves, &children, &mut tables);
    let mut columns = [0usize; 256];
    reading::copy_qubits(e, &mut columns);
    build_rows(&tables, &columns, w, x, z, phases, vacuum)
}

// Builds a named tree.
pub fn build_named(
    tree: Named,
    n: usize,
    w: usize,
    x: &mut [u64],
    z: &mut [u64],
    phases: &mut [u8],
    vacuum: &mut [u64],
) -> Result<(), Refusal>
    requires { (n ≤ 256) × (0 < n) × (w ≡ words_for n) × (2 * n * w ≤ length x.old) × (2 * n * w ≤ length z.old) × (2 * n ≤ length phases.old) }
    ensures { TreeBuilt (first_of (tree_checks false (named_tree tree n))) w (rows false (named_tree tree n))
        x.old z.old phases.old vacuum.old result x.new z.new phases.new vacuum.new }
{
    let mut tables = Tables::of(n);
    let mut columns = [0usize; 256];
    let mut children = [None; 768];
    planting::plant(tree, &mut columns, &mut tables, &mut children);
    chains::naive_slots(&children, &mut tables);
    build_rows(&tables, &columns, w, x, z, phases, vacuum)
}
