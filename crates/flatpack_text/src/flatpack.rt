// The table of entries that reading leaves, as a flatpack: plain numbers, which slots are filled, and how many qubits
// are used.

ghost use Rattle.std.specs.Prelude.{◌≡◌, ◌+◌, ◌*◌, ◌<◌, min, max, get_or};
ghost use Rattle.flatpack_text.specs.Entries.{placed, plain_at, filled_at, used};

use crate::puts::put;

// Number k of the table; 0 past its end.
fn number_at(table: &[usize], k: usize) -> usize
    ensures { result ≡ get_or table.now k 0 }
{
    table.get(k).copied().unwrap_or(0)
}

// Number k of the flatpack: a qubit as it is, a slot without the 1 that was added.
#[tactic(auto, unfolding(crate::specs::Entries::plain_at))]
fn plain_at(table: &[usize], k: usize) -> usize
    ensures { result ≡ plain_at table.now k }
{
    let v = number_at(table, k);
    if k % 4 == 0 { v } else { v.saturating_sub(1) }
}

// Whether slot k is filled.
#[tactic(auto, unfolding(crate::specs::Entries::filled_at))]
fn filled_at(table: &[usize], k: usize) -> bool
    requires { k < 768 }
    ensures { result ≡ filled_at table.now k }
{
    number_at(table, 4 * (k / 3) + k % 3 + 1) != 0
}

// The larger of top and one more than a qubit, counted as far as 257.
fn past(top: usize, qubit: usize) -> usize
    ensures { result ≡ max top (min qubit 256 + 1) }
{
    top.max(qubit.min(256) + 1)
}

// The numbers of the first n entries, at most 256 of them, four an entry: the qubit, and the X, Y and Z slots, 0 for
// one that is empty.
#[tactic(auto, using(crate::proofs::Placing::placed_next))]
pub fn plain_numbers(table: &[usize], n: usize, entries: &mut [usize])
    ensures { entries.new ≡ placed (plain_at table.now) (4 * min n 256) entries.old }
{
    for i in 0..4 * n.min(256) {
        put(entries, i, plain_at(table, i));
    }
}

// Which slots of the first n entries are filled, at most 256 of them, three an entry. The same loop as above: a
// function of both would take what is placed as a closure, whose contract would say less than `placed` does.
#[tactic(auto, using(crate::proofs::Placing::placed_next))]
pub fn filled_slots(table: &[usize], n: usize, filled: &mut [bool])
    ensures { filled.new ≡ placed (filled_at table.now) (3 * min n 256) filled.old }
{
    for k in 0..3 * n.min(256) {
        put(filled, k, filled_at(table, k));
    }
}

// The qubits that the first n entries use, at most 256 of them: the largest + 1, counted as far as 257, and 0 if there
// is no entry.
#[tactic(auto, using(crate::proofs::Placing::used_next), unfolding(crate::specs::Entries::used))]
pub fn qubits_used(table: &[usize], n: usize) -> usize
    ensures { result ≡ used table.now (min n 256) }
{
    let mut top = 0;
    for i in 0..n.min(256) {
        top = past(top, number_at(table, 4 * i));
    }
    top
}
