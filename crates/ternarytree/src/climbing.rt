// Climbs to the root, and the tests of a whole tree.

ghost use Rattle.std.specs.Prelude.{◌≡◌, Ok, List, Option, ℕ, ◌+◌, ◌*◌, ◌<◌, ◌≤◌};
ghost use Rattle.refusal.specs.Numbers.{bare, answered};
ghost use Rattle.trees.specs.Trees.{Tree, climb, scattered, missing};
ghost use Rattle.trees.specs.Hanging.{Hangs};
ghost use Rattle.ternarytree.specs.Building.{placed};
ghost use Rattle.ternarytree.specs.Tables.{AllBelow, Parents, link_of, Links, Ways, Wired, verdict};
ghost use Rattle.ternarytree.specs.Reading.{read, Fresh, Filled};

use crate::entries::Entries;
use crate::reading;
use crate::tables::Tables;
use refusal::Refusal;

// The way up from a node: the node above it, and the letter of the slot that it stands in.
#[derive(Clone, Copy)]
pub struct Way {
    pub node: u16,
    pub letter: u16,
}

// The way up from a node that stands in a slot.
fn way_up(slot: Option<u16>) -> Option<Way>
    ensures { result ≡ link_of (placed slot) }
{
    let k = slot?;
    Some(Way {
        node: k / 3,
        letter: k % 3,
    })
}

// The way up from each of n nodes.
#[derive(Drop)]
pub struct Routes {
    pub n: usize,
    pub ways: [Option<Way>; 256],
    ghost some: { (0 < n) × (n ≤ 256) },
    ghost within: { Ways n ways },
}

impl Routes {
    pub fn of(tables: &Tables) -> Routes
        requires { AllBelow tables.now.n (3 * tables.now.n) tables.now.parents }
        ensures { (result.n ≡ tables.now.n)
            × ((t : Tree) → Parents t tables.now.n tables.now.parents → Links t result.n result.ways) }
    {
        let mut ways = [None; 256];
        for i in 0..tables.n {
            ways[i] = way_up(tables.parents[i]);
        }
        Routes { n: tables.n, ways }
    }

    // The node that n steps up from node i lead to, or the first node on the way that has a smaller number than i.
    pub fn climb_up(&self, i: usize) -> usize
        requires { i < self.now.n }
        ensures { (result < self.now.n)
            × ((t : Tree) → Links t self.now.n self.now.ways
            → Hangs t result i × (i ≤ result → result ≡ climb t self.now.n i)) }
    {
        let mut at = i;
        let mut left = self.n;
        // Counted by hand: must-fail/endless_parents.edit is about what is left.
        while 0 < left {
            let Some(way) = self.ways[at] else {
                return at;
            };
            at = way.node as usize;
            if at < i {
                return at;
            }
            left -= 1;
        }
        at
    }
}

// Whether not all nodes hang from one root. A climb need not go past a node that was climbed from before.
pub fn is_scattered(tables: &Tables) -> bool
    requires { AllBelow tables.now.n (3 * tables.now.n) tables.now.parents }
    ensures { (t : Tree) → Parents t tables.now.n tables.now.parents → result ≡ scattered t }
{
    let routes = Routes::of(tables);
    let top = routes.climb_up(0);
    if tables.parents[top].is_some() {
        return true;
    }
    for i in 0..tables.n {
        let r = routes.climb_up(i);
        if i <= r && r != top {
            return true;
        }
    }
    false
}

// Whether a leaf has no slot.
pub fn any_missing(tables: &Tables) -> bool
    ensures { (t : Tree) (ps : List (Option ℕ)) → Wired t tables.now.n (3 * tables.now.n) ps tables.now.slots
        → result ≡ missing t }
{
    for m in 0..2 * tables.n {
        if tables.slots[m].is_none() {
            return true;
        }
    }
    false
}

// The first test that a flatpack fails; where it fails none, the tables, blank at first, hold the slots of its nodes and
// leaves and the nodes in its slots.
pub fn check_tree(
    e: Entries,
    tables: &mut Tables,
    children: &mut [Option<u16>; 768],
) -> Result<(), Refusal>
    requires { Fresh e.n tables.old }
    ensures nodes { tables.new.n ≡ e.entry.n }
    ensures told { answered result ≡ bare (verdict e.entry.leaves (read e.entry)) }
    ensures filled { result ≡ Ok tt → Filled (read e.entry) e.entry.n tables.new.parents children.new tables.new.slots }
{
    if let Err(fault) = reading::wire(e, tables, children) {
        return Err(fault.why);
    }
    if is_scattered(tables) {
        return Err(Refusal::Roots);
    }
    if e.leaves && any_missing(tables) {
        return Err(Refusal::Leaf);
    }
    Ok(())
}
