// Naive trees: the slots of the leaves, at the ends of Z chains.

ghost use Rattle.std.specs.Prelude.{◌≡◌, false, ◌*◌, ◌<◌, ◌≤◌};
ghost use Rattle.trees.specs.Trees.{Tree};
ghost use Rattle.trees.specs.Leaves.{chain_end, slot_of};
ghost use Rattle.ternarytree.specs.Tables.{AllBelow, Children, Slots};

use crate::tables::Tables;

// The end of the Z chain that starts at the node in slot k, or slot k.
pub fn chain_end(children: &[Option<u16>; 768], n: usize, k: usize) -> usize
    requires { (n ≤ 256) × (k < 3 * n) × AllBelow (3 * n) n children.now }
    ensures { (result < 3 * n) × ((t : Tree) → Children t n (3 * n) children.now → result ≡ chain_end t k) }
{
    let Some(first) = children[k] else {
        return k;
    };
    let mut s = 3 * first as usize + 2;
    for _ in 0..n {
        let Some(next) = children[s] else {
            return s;
        };
        s = 3 * next as usize + 2;
    }
    s
}

// The slot of each row's leaf.
pub fn naive_slots(children: &[Option<u16>; 768], tables: &mut Tables)
    requires { AllBelow (3 * tables.old.n) tables.old.n children.now }
    ensures nodes { tables.new.n ≡ tables.old.n }
    ensures parents { tables.new.parents ≡ tables.old.parents }
    ensures slots { (t : Tree) → Children t tables.old.n (3 * tables.old.n) children.now
        → Slots (slot_of false t) tables.old.n tables.new.slots }
{
    for m in 0..2 * tables.n {
        tables.slots[m] = Some(chain_end(children, tables.n, 3 * (m / 2) + m % 2) as u16);
    }
}
