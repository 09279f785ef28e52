// The named trees, into tables.

ghost use Rattle.std.specs.Prelude.{◌≡◌, ◌<◌};
ghost use Rattle.trees.specs.declared.Named.TheVariants.{BravyiKitaev as bravyiKitaev};
ghost use Rattle.trees.specs.Named.{under, named_tree};
ghost use Rattle.ternarytree.specs.Tables.{Zero, Blank, Planted};
ghost use Rattle.ternarytree.specs.Reading.{Fresh};

use crate::tables::Tables;
use trees::Named;

// The slot of node k in the Bravyi-Kitaev tree: node 1 under 0 by X, then k under k / 2, by X if k is even and by Z if it
// is odd.
#[tactic(auto, unfolding(trees::specs::Named::under))]
pub fn bravyi_kitaev(k: usize) -> usize
    requires { (0 < k) × (k < 256) }
    ensures { result ≡ under bravyiKitaev k }
{
    if k < 2 {
        0
    } else if k % 2 == 0 {
        3 * (k / 2)
    } else {
        3 * (k / 2) + 2
    }
}

// The slot of node k.
pub fn slot_under(tree: Named, k: usize) -> usize
    requires { (0 < k) × (k < 256) }
    ensures { result ≡ under tree k }
{
    match tree {
        Named::JordanWigner => 3 * (k - 1) + 2,
        Named::Parity => 3 * (k - 1),
        Named::BravyiKitaev => bravyi_kitaev(k),
        // The slots are filled one after another.
        Named::Jkmn => k - 1,
    }
}

// The columns of the nodes, the slots that hold them and the nodes in the slots, in tables with nothing in them yet.
pub fn plant(
    tree: Named,
    columns: &mut [usize; 256],
    tables: &mut Tables,
    children: &mut [Option<u16>; 768],
)
    requires { Fresh tables.old.n tables.old × Zero 256 columns.old × Blank 768 children.old }
    ensures { (tables.new.n ≡ tables.old.n)
        × Planted (named_tree tree tables.old.n) tables.old.n columns.new tables.new.parents children.new }
{
    for k in 1..tables.n {
        let s = slot_under(tree, k);
        columns[k] = k;
        tables.parents[k] = Some(s as u16);
        children[s] = Some(k as u16);
    }
}
