// The tests of sizes and lengths that come before a tree is built. Every public function is total.
//
//   either_outside              whether one of two numbers is 0 or above 256
//   bad_size, bad_qubits        whether 1 or 3 refuses a flatpack
//   Lengths                     the lengths of the slices that are lent for writing
//   outputs_short, flat_short   whether 2 refuses the lengths of a named tree's slices or of a flatpack's
//   unreadable                  whether the slots of a flatpack cannot be read

#![tactic(auto)]

ghost use Rattle.std.specs.Prelude.{◌≡◌, ◌∷◌, [], ◌||◌, ltb, ◌*◌, ◌≤◌, length};
ghost use Rattle.refusal.specs.Table.{◌of◌, short};
ghost use Rattle.tree_sizes.specs.Sizes.{outside, qubit_at, reaches, outputs_lent, many_or_short, unreadable};

use refusal::Lent;
use trees::Flatpack;

// Whether one of two numbers is 0 or above 256.
#[tactic(auto, unfolding(crate::specs::Sizes::outside))]
pub fn either_outside(n: usize, q: usize) -> bool
    ensures { result ≡ (outside n || outside q) }
{
    refusal::outside(n) || refusal::outside(q)
}

// The qubit of entry i; 0 past the end.
fn qubit_at(entries: &[usize], i: usize) -> usize
    ensures { result ≡ qubit_at entries.now i }
{
    if i <= entries.len() / 4 && 4 * i < entries.len() {
        entries[4 * i]
    } else {
        0
    }
}

// Whether the qubit of one of n entries is at or above b.
fn reaches(entries: &[usize], n: usize, b: usize) -> bool
    ensures { result ≡ reaches entries.now n b }
{
    // Of the entries past the end one is looked at: their qubits are all 0.
    let m = n.min(entries.len() / 4 + 1);
    for i in 0..m {
        if b <= qubit_at(entries, i) {
            return true;
        }
    }
    false
}

// 1: modes or qubits 0 or above 256, or a flatpack qubit above 255.
pub fn bad_size(flat: Flatpack, q: usize) -> bool
    ensures { let n = flat.entry.modes in
        result ≡ (outside n || (outside q || reaches flat.entry.entries.now n 256)) }
{
    either_outside(flat.modes, q) || reaches(flat.entries, flat.modes, 256)
}

// 3: qubits fewer than nodes, or a flatpack qubit not below qubits.
pub fn bad_qubits(flat: Flatpack, q: usize) -> bool
    ensures { let n = flat.entry.modes in result ≡ (ltb q n || reaches flat.entry.entries.now n q) }
{
    q < flat.modes || reaches(flat.entries, flat.modes, q)
}

// The lengths of the slices lent for the X parts, the Z parts, the phases and the vacuum, and as work room.
#[derive(Clone, Copy)]
pub struct Lengths {
    pub x: usize,
    pub z: usize,
    pub phases: usize,
    pub vacuum: usize,
    pub room: usize,
}

// Whether one of the lengths of the outputs is below what n modes need, with w words to a part of a row; more than 256
// modes, or more than 4 words a row, are too much for slices of any length.
#[tactic(auto, unfolding(crate::specs::Sizes::many_or_short))]
pub fn outputs_short(n: usize, w: usize, out: Lengths) -> bool
    ensures { result ≡ many_or_short n w (outputs_lent n w out.x out.z out.phases out.vacuum out.room) }
{
    256 < n
        || 4 < w
        || refusal::any_short(&[
            Lent(2 * n * w, out.x),
            Lent(2 * n * w, out.z),
            Lent(2 * n, out.phases),
            Lent(w, out.vacuum),
            Lent(4 * n * w, out.room),
        ])
}

// Whether so many entries and places are too few for a flatpack of n modes, at most 256.
fn entries_short(n: usize, entries: usize, filled: usize) -> bool
    requires { n ≤ 256 }
    ensures { result ≡ short ((4 * n of entries) ∷ (3 * n of filled) ∷ []) }
{
    refusal::any_short(&[Lent(4 * n, entries), Lent(3 * n, filled)])
}

// The same as outputs_short for a flatpack, whose entries and places come before the outputs. It takes the lengths alone,
// so that it answers for any, of slices or not.
#[tactic(auto, unfolding(crate::specs::Sizes::many_or_short))]
pub fn flat_short(n: usize, w: usize, entries: usize, filled: usize, out: Lengths) -> bool
    ensures { result ≡ many_or_short n w (
        (4 * n of entries)
        ∷ (3 * n of filled)
        ∷ outputs_lent n w out.x out.z out.phases out.vacuum out.room) }
{
    256 < n || entries_short(n, entries, filled) || outputs_short(n, w, out)
}

// Whether the slots of a flatpack cannot be read: it has 0 or above 256 modes, a slice is too short, or a qubit is above
// 255.
#[tactic(auto, unfolding(crate::specs::Sizes::unreadable, crate::specs::Sizes::outside))]
pub fn unreadable(flat: Flatpack) -> bool
    ensures { result ≡ unreadable flat.entry.modes flat.entry.entries.now flat.entry.filled.now }
{
    refusal::outside(flat.modes)
        || entries_short(flat.modes, flat.entries.len(), flat.filled.len())
        || reaches(flat.entries, flat.modes, 256)
}
