// One walk along the two rows of a mode beside a state, in one loop, and what is told from it.

ghost use Rattle.std.specs.Prelude.{◌≡◌};
ghost use Rattle.dense_block.specs.Words.{xors};
ghost use Rattle.majorana.specs.Walks.{Level, Walked, paired_by, seen_by, empty_by};

use pauli::Row;

// What a walk gathers: `apart` is 0 exactly if the X parts agree; `first` is the fold of the first row's Z part with the
// state, and `both` that of both Z parts.
#[derive(Clone, Copy)]
pub struct Walk {
    pub apart: u64,
    pub first: u64,
    pub both: u64,
}

// What is told from it, with the mode's phase difference d, which is below 4.
impl Walk {
    // Whether the X parts agree and d is even.
    pub fn is_paired(self, d: u8) -> bool
        ensures { result ≡ paired_by self d }
    {
        self.apart == 0 && d % 2 == 0
    }

    // Whether the mode is occupied in the state: e·s differs from d/2.
    pub fn is_seen(self, d: u8) -> bool
        ensures { result ≡ seen_by self d }
    {
        dense_block::parity(self.both) != (1 < d)
    }

    // Whether the mode is empty in the state: X parts agree, d is even, and e·s is d/2.
    pub fn is_empty(self, d: u8) -> bool
        ensures { result ≡ empty_by self d }
    {
        self.is_paired(d) && !self.is_seen(d)
    }
}

// Along the rows lo and hi of a mode, beside the state s. No row has more than four words: a loop of a fixed length, with
// a test for words that are not there, takes a third fewer instructions than one of the row's length.
pub fn beside(lo: Row, hi: Row, s: &[u64]) -> Walk
    requires { Level lo.x.now hi.x.now lo.z.now hi.z.now s.now }
    ensures { Walked lo.entry.x.now hi.entry.x.now lo.entry.z.now hi.entry.z.now s.now result }
{
    let mut apart = 0u64;
    let mut first = 0u64;
    let mut both = 0u64;
    for at in 0..4 {
        if at < s.len() {
            let t = s[at];
            apart |= lo.x[at] ^ hi.x[at];
            first ^= lo.z[at] & t;
            both ^= (lo.z[at] & t) ^ (hi.z[at] & t);
        }
    }
    Walk { apart, first, both }
}

// The same, and s becomes s xor the first row's X part. The two folds are made apart, since the first is wanted by itself.
pub fn across(lo: Row, hi: Row, s: &mut [u64]) -> Walk
    requires { Level lo.x.now hi.x.now lo.z.now hi.z.now s.old }
    ensures { Walked lo.entry.x.now hi.entry.x.now lo.entry.z.now hi.entry.z.now s.old result
        × (s.new ≡ xors s.old lo.entry.x.now) }
{
    let n = lo.x.len();
    let mut apart = 0u64;
    let mut first = 0u64;
    let mut second = 0u64;
    for at in 0..4 {
        if at < n {
            let t = s[at];
            apart |= lo.x[at] ^ hi.x[at];
            first ^= lo.z[at] & t;
            second ^= hi.z[at] & t;
            s[at] = t ^ lo.x[at];
        }
    }
    Walk {
        apart,
        first,
        both: first ^ second,
    }
}
