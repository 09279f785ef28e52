// The tests that every call shares, and the rows of a set that passed them.

ghost use Rattle.std.specs.Prelude.{◌≡◌, false, ℕ, ◌^◌, ◌+◌, ◌*◌, ◌≤◌, ◌<◌, ltb, length, get_or, MatchOption};
ghost use Rattle.refusal.specs.Slices.{lengths};
ghost use Rattle.refusal.specs.Table.{short};
ghost use Rattle.refusal.specs.Search.{some_below};
ghost use Rattle.majorana.specs.Sets.{set_lent, bad_in, many_or_bad};
ghost use Rattle.majorana.specs.Held.{FitsIn, HeldIn};

use crate::RowSet;
use pauli::{Phase, Row};
use refusal::Lent;

// Whether slices are too short for the rows of a set, or for what else a call is lent: proved once for the six calls.
pub fn short(set: RowSet, w: usize, more: &[Lent]) -> bool
    requires { (set.modes ≤ 256) × (w ≤ 4) }
    ensures { result ≡ short (set_lent set.entry.modes w (length set.entry.x.now) (length set.entry.z.now)
        (length set.entry.phases.now) (lengths more.now)) }
{
    set.rows_short(w) || refusal::any_short(more)
}

// Whether one of the first n phases is above 3. It does not stop at the first that is, so that a processor can look at
// many at once.
pub fn bad_phase(phases: &[u8], n: usize) -> bool
    ensures { result ≡ some_below n (λ k. ltb 3 (get_or phases.now k 0)) }
{
    let m = n.min(phases.len());
    let mut top = 0u8;
    for p in &phases[..m] {
        top = top.max(*p);
    }
    3 < top
}

// Words put over as many others, by a loop: `copy_from_slice` of two slices that a caller lends calls memmove, and the
// archive for C needs memcpy and memset alone.
pub fn put(part: &mut [u64], words: &[u64])
    requires { length words.now ≡ length part.old }
    ensures { part.new ≡ words.now }
{
    dense_block::copy(part, words);
}

// For the proof alone: that words are below 2^64 is known of a slice that is a parameter, and not of one in a struct.
fn words(x: &[u64])
    ensures { (k : ℕ) → get_or x.now k 0 < 2 ^ 64 }
{}

// The rows of a set, of w words a part, that lie in their slices and are not bad: what `RowSet::rows` makes.
#[derive(Clone, Copy)]
pub struct Rows<'a> {
    pub set: RowSet<'a>,
    pub w: usize,
    ghost held: { HeldIn set w },
    ghost good: { bad_in set w ≡ false },
}

impl<'a> Rows<'a> {
    ghost use Rattle.dense_block.specs.Words.{term_of};
    ghost use Rattle.majorana.specs.HeldRows.{modes_of, IsRow};

    // The rows of a set that passed 2 and 17.
    pub(crate) fn of(set: RowSet<'a>, w: usize) -> Rows<'a>
        requires fits { FitsIn set w }
        requires good { many_or_bad set.modes set.qubits w set.x.now set.z.now set.phases.now ≡ false }
        ensures set { result.set ≡ set.entry }
        ensures w { result.w ≡ w }
    {
        words(set.x);
        words(set.z);
        Rows { set, w }
    }

    // Row k, if there is one.
    pub fn get(&self, k: usize) -> Option<Row<'a>>
        ensures { MatchOption result (2 * self.now.set.modes ≤ k) (IsRow self.now k) }
    {
        if k < 2 * self.set.modes {
            Some(self.row(k))
        } else {
            None
        }
    }

    // The same, where there is one.
    pub(crate) fn row(&self, k: usize) -> Row<'a>
        requires { k < 2 * self.now.set.modes }
        ensures phase { result.phase.power ≡ get_or self.now.set.phases.now k 0 }
        ensures x { result.x.now ≡ term_of self.now.w self.now.set.x.now k }
        ensures z { result.z.now ≡ term_of self.now.w self.now.set.z.now k }
    {
        let RowSet { x, z, phases, .. } = self.set;
        let a = k * self.w;
        let e = a + self.w;
        Row {
            phase: Phase { power: phases[k] },
            x: &x[a..e],
            z: &z[a..e],
        }
    }
}
