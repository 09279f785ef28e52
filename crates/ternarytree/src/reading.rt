// The entries and slots of a flatpack, into tables.

ghost use Rattle.std.specs.Prelude.{◌≡◌, Ok, false, ℕ, ◌+◌, ◌*◌, ◌<◌, ◌≤◌};
ghost use Rattle.refusal.specs.Numbers.{bare, answered};
ghost use Rattle.refusal.specs.Search.{found};
ghost use Rattle.trees.specs.declared.Child.TheVariants.{Node as node};
ghost use Rattle.trees.specs.Trees.{Tree, node_of, row_of, parent_in, leaf_in, twice_in, leaf_fault, fault_of};
ghost use Rattle.trees.specs.Flatpacks.{entry_in, past, leaf_numbered};
ghost use Rattle.tree_sizes.specs.Sizes.{qubit_at};
ghost use Rattle.ternarytree.specs.Building.{placed, fault_slot};
ghost use Rattle.ternarytree.specs.Tables.{nth, at, Holds, Blank, child_in, NodeBelow, Wired, slot_verdict};
ghost use Rattle.ternarytree.specs.Reading.{read, told, slot_told, Fresh, Filled};

use crate::entries::Entries;
use crate::tables::Tables;
use refusal::Refusal;
use trees::Child;

// The qubit of each entry.
pub fn copy_qubits(e: Entries, columns: &mut [usize; 256])
    ensures { (i : ℕ) → i < e.entry.n → nth columns.new i ≡ qubit_at e.entry.numbers.now i }
{
    for i in 0..e.n {
        columns[i] = e.qubit(i);
    }
}

// The entry of each qubit, in a table with nothing in it at first; true if a qubit has two.
pub fn enter(e: Entries, table: &mut [Option<u16>; 256]) -> bool
    requires { Blank 256 table.old }
    ensures twice { result ≡ twice_in e.entry.n (qubit_at e.entry.numbers.now) }
    ensures holds { result ≡ false → Holds 256 (entry_in e.entry.n (qubit_at e.entry.numbers.now)) table.new }
{
    for i in 0..e.n {
        let q = e.qubit(i);
        if table[q].is_some() {
            return true;
        }
        table[q] = Some(i as u16);
    }
    false
}

// One more than the largest qubit.
pub fn past_all(e: Entries) -> usize
    ensures { result ≡ past (qubit_at e.entry.numbers.now) e.entry.n }
{
    let mut top = 0usize;
    for i in 0..e.n {
        top = top.max(e.qubit(i) + 1);
    }
    top
}

// Leaf m: X leaf m / 2 if m is even, Y leaf (m - 1) / 2 if it is odd.
#[tactic(auto, unfolding(trees::specs::Flatpacks::leaf_numbered))]
pub fn leaf_numbered(m: usize) -> Child
    ensures { result ≡ leaf_numbered m }
{
    if m % 2 == 0 {
        Child::XLeaf(m / 2)
    } else {
        Child::YLeaf((m - 1) / 2)
    }
}

// What the table of the entries has for a number.
pub fn entry_of(table: &[Option<u16>; 256], q: usize) -> Option<u16>
    ensures { result ≡ at table.now q }
{
    if q < 256 { table[q] } else { None }
}

// What a slot holds. A number that is no entry's qubit is a leaf, or naive it is ignored.
pub fn child_in(table: &[Option<u16>; 256], top: usize, leaves: bool, slot: Option<usize>) -> Child
    ensures { result ≡ child_in table.now top leaves slot }
{
    let Some(q) = slot else {
        return Child::Empty;
    };
    if let Some(e) = entry_of(table, q) {
        Child::Node(e as usize)
    } else if !leaves {
        Child::Empty
    } else if q < top {
        Child::Low
    } else {
        leaf_numbered(q - top)
    }
}

// The node that a slot holds.
pub fn node_held(o: Child) -> Option<u16>
    requires { NodeBelow 256 o }
    ensures { placed result ≡ node_of o }
{
    match o {
        Child::Node(j) => Some(j as u16),
        _ => None,
    }
}

// Enters slot k for node j, which it holds, into the table of the parents, or tells what is wrong with that.
pub fn place_node(j: usize, k: usize, parents: &mut [Option<u16>; 256]) -> Result<(), Refusal>
    requires { (j < 256) × (k < 768) }
    ensures told { (t : Tree) (n : ℕ) → j < n → t.child k ≡ node j → Holds n (parent_in t k) parents.old
        → answered result ≡ bare (fault_of t k (node j)) }
    ensures holds { (t : Tree) (n : ℕ) → j < n → n ≤ 256 → t.child k ≡ node j → Holds n (parent_in t k) parents.old
        → result ≡ Ok tt → Holds n (parent_in t (k + 1)) parents.new }
{
    if j == k / 3 {
        return Err(Refusal::SelfChild);
    }
    if parents[j].is_some() {
        return Err(Refusal::SecondParent);
    }
    parents[j] = Some(k as u16);
    Ok(())
}

// Enters slot k for the leaf of row m, which it holds, into the table of the leaves, or tells what is wrong with that.
pub fn place_leaf(m: usize, k: usize, slots: &mut [Option<u16>; 512]) -> Result<(), Refusal>
    requires { (m < 512) × (k < 768) }
    ensures told { (t : Tree) (n : ℕ) → t.n ≡ n → m < 2 * n → row_of (t.child k) ≡ found m
        → Holds (2 * n) (leaf_in t k) slots.old → answered result ≡ bare (leaf_fault t k m) }
    ensures holds { (t : Tree) (n : ℕ) → t.n ≡ n → m < 2 * n → n ≤ 256 → row_of (t.child k) ≡ found m
        → Holds (2 * n) (leaf_in t k) slots.old → result ≡ Ok tt → Holds (2 * n) (leaf_in t (k + 1)) slots.new }
{
    if slots[m].is_some() {
        return Err(Refusal::Leaf); // used twice
    }
    slots[m] = Some(k as u16);
    Ok(())
}

// Enters what slot k holds into the tables of the parents and of the leaves, or tells what is wrong with it.
pub fn place(o: Child, k: usize, tables: &mut Tables) -> Result<(), Refusal>
    requires { (k < 3 * tables.old.n) × NodeBelow tables.old.n o }
    ensures nodes { tables.new.n ≡ tables.old.n }
    ensures told { (t : Tree) → t.child k ≡ o → Wired t tables.old.n k tables.old.parents tables.old.slots
        → answered result ≡ bare (fault_of t k o) }
    ensures wired { (t : Tree) → t.child k ≡ o → Wired t tables.old.n k tables.old.parents tables.old.slots
        → result ≡ Ok tt → Wired t tables.new.n (k + 1) tables.new.parents tables.new.slots }
{
    match o {
        Child::Empty => Ok(()),
        Child::Node(j) => place_node(j, k, &mut tables.parents),
        Child::XLeaf(i) if i < tables.n => place_leaf(2 * i, k, &mut tables.slots),
        Child::YLeaf(i) if i < tables.n => place_leaf(2 * i + 1, k, &mut tables.slots),
        Child::XLeaf(_) | Child::YLeaf(_) => Err(Refusal::Leaf),
        Child::Low => Err(Refusal::Child),
    }
}

// The first fault of the slots, and the slot that has it. That a qubit has two entries is no slot's.
#[derive(Clone, Copy)]
pub struct Fault {
    pub why: Refusal,
    pub slot: Option<usize>,
}

// Reads the slots of a flatpack: which node each holds, and the slots that hold the nodes and the leaves. What is wrong
// with the entries or with the first wrong slot.
pub fn wire(e: Entries, tables: &mut Tables, children: &mut [Option<u16>; 768]) -> Result<(), Fault>
    requires { Fresh e.n tables.old }
    ensures nodes { tables.new.n ≡ e.entry.n }
    ensures told { told result ≡ bare (slot_verdict (read e.entry)) }
    ensures slot { slot_told result ≡ fault_slot (read e.entry) }
    ensures filled { result ≡ Ok tt → Filled (read e.entry) e.entry.n tables.new.parents children.new tables.new.slots }
{
    let mut table = [None; 256];
    if enter(e, &mut table) {
        return Err(Fault {
            why: Refusal::SecondEntry,
            slot: None,
        });
    }
    let top = past_all(e);
    for k in 0..3 * e.n {
        let o = child_in(&table, top, e.leaves, e.slot(k));
        children[k] = node_held(o);
        if let Err(why) = place(o, k, tables) {
            return Err(Fault { why, slot: Some(k) });
        }
    }
    Ok(())
}
