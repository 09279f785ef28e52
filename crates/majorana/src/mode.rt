// One mode: its X parts and phase difference, what it reads of a state, and the vacuum rule.

use crate::rows::Rows;
use crate::walk;
use crate::walk::Walk;

impl<'a> Rows<'a> {
    ghost use Rattle.std.specs.Prelude.{◌≡◌, ◌<◌, length};
    ghost use Rattle.algebra.specs.Rows.{state};
    ghost use Rattle.algebra.specs.Modes.{lo, d, paired, vacuum_rule};
    ghost use Rattle.dense_block.specs.Words.{value};
    ghost use Rattle.majorana.specs.HeldRows.{modes_of};
    ghost use Rattle.majorana.specs.Rooms.{all_paired};
    ghost use Rattle.majorana.specs.Walks.{Looked};

    // The phase difference d of mode i.
    pub(crate) fn difference(&self, i: usize) -> u8
        requires { i < self.now.set.modes }
        ensures { result ≡ d (modes_of self.now) i }
    {
        let a = 2 * i;
        (self.set.phases[a + 1] + 7 - self.set.phases[a]) % 4
    }

    // Whether the X parts of mode i agree and d is even.
    fn is_paired(&self, i: usize) -> bool
        requires { i < self.now.set.modes }
        ensures { result ≡ paired (modes_of self.now) i }
    {
        dense_block::same(self.row(2 * i).x, self.row(2 * i + 1).x) && self.difference(i) % 2 == 0
    }

    // Whether every mode is paired.
    pub(crate) fn all_paired(&self) -> bool
        ensures { result ≡ all_paired (modes_of self.now) }
    {
        for i in (0..self.set.modes).rev() {
            if !self.is_paired(i) {
                return false;
            }
        }
        true
    }

    // What a walk along the rows of mode i tells of the state s.
    pub(crate) fn look(&self, i: usize, s: &[u64]) -> Walk
        requires { (i < self.now.set.modes) × (length s.now ≡ self.now.w) }
        ensures { Looked (modes_of self.now) i (value s.now) result }
    {
        walk::beside(self.row(2 * i), self.row(2 * i + 1), s)
    }

    // The same, and the state s becomes what the first row of mode i makes of it. The phase of that is for the caller
    // to add.
    pub(crate) fn act(&self, i: usize, s: &mut [u64]) -> Walk
        requires { (i < self.now.set.modes) × (length s.old ≡ self.now.w) }
        ensures { Looked (modes_of self.now) i (value s.old) result
            × (value s.new ≡ state (lo (modes_of self.now) i) (value s.old)) }
    {
        walk::across(self.row(2 * i), self.row(2 * i + 1), s)
    }

    // Whether every mode is empty in the state v.
    pub(crate) fn vacuum_rule(&self, v: &[u64]) -> bool
        requires { length v.now ≡ self.now.w }
        ensures { result ≡ vacuum_rule (modes_of self.now) (value v.now) }
    {
        for i in (0..self.set.modes).rev() {
            if !self.look(i, v).is_empty(self.difference(i)) {
                return false;
            }
        }
        true
    }
}
