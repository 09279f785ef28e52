// The entries of a flatpack that can be read.

ghost use Rattle.std.specs.Prelude.{◌≡◌, false, ◌+◌, ◌*◌, ◌/◌, ◌%◌, ◌<◌, ◌≤◌, length};
ghost use Rattle.tree_sizes.specs.Sizes.{qubit_at, unreadable};
ghost use Rattle.ternarytree.specs.Building.{slot_at};
ghost use Rattle.ternarytree.specs.Tables.{AtMost};

use trees::Flatpack;

// As trees::Flatpack, read with leaves or naive.
#[derive(Clone, Copy)]
pub struct Entries<'a> {
    pub leaves: bool,
    pub n: usize,
    pub numbers: &'a [usize],
    pub filled: &'a [bool],
    ghost some: { (0 < n) × (n ≤ 256) },
    ghost long: { (4 * n ≤ length numbers.now) × (3 * n ≤ length filled.now) },
    ghost low: { AtMost n 255 (qubit_at numbers.now) },
}

impl<'a> Entries<'a> {
    pub fn of(leaves: bool, flat: Flatpack<'a>) -> Entries<'a>
        requires { unreadable flat.modes flat.entries.now flat.filled.now ≡ false }
        ensures leaves { result.leaves ≡ leaves }
        ensures n { result.n ≡ flat.entry.modes }
        ensures numbers { result.numbers.now ≡ flat.entry.entries.now }
        ensures filled { result.filled.now ≡ flat.entry.filled.now }
    {
        Entries {
            leaves,
            n: flat.modes,
            numbers: flat.entries,
            filled: flat.filled,
        }
    }

    // The qubit of entry i.
    pub fn qubit(self, i: usize) -> usize
        requires { i < self.n }
        ensures { (result ≡ qubit_at self.entry.numbers.now i) × (result ≤ 255) }
    {
        self.numbers[4 * i]
    }

    // What is in slot k.
    pub fn slot(self, k: usize) -> Option<usize>
        requires { k < 3 * self.n }
        ensures { result ≡ slot_at self.entry.numbers.now self.entry.filled.now k }
    {
        if self.filled[k] {
            Some(self.numbers[4 * (k / 3) + k % 3 + 1])
        } else {
            None
        }
    }
}
