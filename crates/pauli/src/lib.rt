// Phases, coefficients, and the product of two rows.
//
//   Phase         a power of i: add, double_parity, less
//   Turn          a number that a power of i turns: f64, which comes back as a Marked, and Coefficient
//   Coefficient   a complex number: two f64 parts
//   Marked        a real or an imaginary number
//   Row           a row as it is lent: letter_power
//   meet          the phase of the product of two rows, and whether they commute
//   multiply      the product of two rows

#![tactic(auto)]

ghost use Rattle.std.specs.Prelude.{◌≡◌, Bool, ◌&&◌, ℕ, ◌+◌, ◌*◌, ◌%◌, ◌≤◌, length, bit_xor};
ghost use Rattle.pauli.specs.Coefficients as coefficients;
ghost use Rattle.dense_block.specs.Words.{digit, value, words_of};
ghost use Rattle.pauli.specs.Product.{lent, given, row_of, first_words, bad_row, Meets, Multiplied};
ghost use Rattle.pauli.specs.Phases.{letter_power, row_power};

use refusal::{Lent, Refusal};

// i to a power. The methods count powers modulo 4; a row's phase above 3 is refused by the calls that take rows.
#[derive(Clone, Copy, Debug, PartialEq, Eq, Default)]
pub struct Phase {
    pub power: u8,
}

impl Phase {
    // The two powers of i multiplied.
    pub fn add(self, other: Phase) -> Phase
        ensures { result.power ≡ (self.power + other.power) % 4 }
    {
        Phase {
            power: (self.power % 4 + other.power % 4) % 4,
        }
    }

    // Twice a parity more: a sign where it is odd.
    pub fn double_parity(self, odd: bool) -> Phase
        ensures { result.power ≡ (self.power + 2 * digit odd) % 4 }
    {
        Phase {
            power: (self.power % 4 + 2 * u8::from(odd)) % 4,
        }
    }

    // The power minus a number of Y columns, modulo 4. The difference is as low as -256 for a row of 256 columns.
    pub fn less(self, ys: u16) -> Phase
        ensures { result.power ≡ letter_power self.power ys }
    {
        let difference = i32::from(self.power) - i32::from(ys);
        Phase {
            power: difference.rem_euclid(4) as u8,
        }
    }
}

// A row i^phase X^x Z^z as it is lent: the words of its X and Z parts.
#[derive(Clone, Copy, Debug, PartialEq, Eq)]
pub struct Row<'a> {
    pub phase: Phase,
    pub x: &'a [u64],
    pub z: &'a [u64],
}

impl<'a> Row<'a> {
    // The phase minus the number of Y columns, modulo 4.
    pub fn letter_power(self) -> Phase
        ensures { result.power ≡ row_power (row_of (lent self.entry)) }
    {
        self.phase.less((dense_block::and_count_ones(self.x, self.z) % 65536) as u16)
    }

    // The first w words of each part.
    fn first(self, w: usize) -> Row<'a>
        requires { (w ≤ length self.x.now) × (w ≤ length self.z.now) }
        ensures { lent result ≡ first_words w (lent self.entry) }
    {
        Row {
            phase: self.phase,
            x: &self.x[..w],
            z: &self.z[..w],
        }
    }

    // Whether the phase is above 3, or one of the parts has a bit past the last column.
    #[tactic(auto, unfolding(crate::specs::Product::bad_row))]
    fn is_bad(self, columns: usize) -> bool
        ensures { result ≡ bad_row columns (lent self.entry) }
    {
        3 < self.phase.power
            || dense_block::stray(self.x, columns)
            || dense_block::stray(self.z, columns)
    }
}

// A number that a power of i turns.
pub trait Turn: Copy {
    type Turned;

    ghost finite: { Self → Bool };

    ghost turned: { ℕ → Self → Self.Turned };

    // No part is infinite or not a number.
    fn is_finite(self) -> bool
        ensures { result ≡ finite self };

    // The number times i to a power, exactly.
    fn turn(self, by: Phase) -> Self::Turned
        ensures { result ≡ turned (by.power % 4) self };
}

// A complex number: two f64 parts.
#[derive(Clone, Copy, Debug, PartialEq, Default)]
pub struct Coefficient {
    pub re: f64,
    pub im: f64,
}

impl Turn for Coefficient {
    type Turned = Coefficient;

    ghost finite = { λ c. coefficients.is_finite c.re && coefficients.is_finite c.im };

    ghost turned = { coefficients.turned };

    #[tactic(auto, using(crate::proofs::Turns::std_finite))]
    fn is_finite(self) -> bool {
        self.re.is_finite() && self.im.is_finite()
    }

    fn turn(self, by: Phase) -> Coefficient {
        let Coefficient { re, im } = self;
        match by.power % 4 {
            0 => self,
            1 => Coefficient { re: -im, im: re },
            2 => Coefficient { re: -re, im: -im },
            _ => Coefficient { re: im, im: -re },
        }
    }
}

// A number marked real or imaginary.
#[derive(Clone, Copy, Debug, PartialEq)]
pub enum Marked {
    Real(f64),
    Imag(f64),
}

impl Turn for f64 {
    type Turned = Marked;

    ghost finite = { coefficients.is_finite };

    ghost turned = { coefficients.marked };

    #[tactic(auto, using(crate::proofs::Turns::std_finite))]
    fn is_finite(self) -> bool {
        self.is_finite()
    }

    fn turn(self, by: Phase) -> Marked {
        match by.power % 4 {
            0 => Marked::Real(self),
            1 => Marked::Imag(self),
            2 => Marked::Real(-self),
            _ => Marked::Imag(-self),
        }
    }
}

// The phase of the product of two rows, and whether they commute.
#[derive(Clone, Copy, Debug, PartialEq, Eq)]
pub struct Meeting {
    pub phase: Phase,
    pub commute: bool,
}

// The phase of the product of the left row and then the right one, and whether the two commute. Its sign is the
// parity of left.z·right.x; they commute if left.x·right.z + left.z·right.x is even, both folded into one word and
// counted once. A caller that takes one of the two pays for that one, where this is inlined.
#[inline(always)]
pub fn meet(left: Row, right: Row) -> Meeting
    ensures { Meets (lent left.entry) (lent right.entry) result }
{
    let sign = dense_block::parity_and(left.z, right.x);
    let clash = dense_block::parity(dense_block::fold_both(left.x, right.z, left.z, right.x));
    Meeting {
        phase: left.phase.add(right.phase).double_parity(sign),
        commute: !clash,
    }
}

// The sum of two parts, in `out`, which is as long as the first.
fn sum_into(out: &mut [u64], a: &[u64], b: &[u64])
    requires { (length a.now ≡ length out.old) × (length b.now ≤ length out.old) }
    ensures { out.new ≡ words_of (length out.old) (bit_xor (value a.now) (value b.now)) }
{
    dense_block::copy(out, a);
    dense_block::xor_assign(out, b);
}

// The product of two rows. The left row's parts have as many words as ox and oz; the right row's may be shorter.
fn multiply_words(left: Row, right: Row, ox: &mut [u64], oz: &mut [u64]) -> Meeting
    requires x_fits { (length left.x.now ≡ length ox.old) × (length right.x.now ≤ length ox.old) }
    requires z_fits { (length left.z.now ≡ length oz.old) × (length right.z.now ≤ length oz.old) }
    ensures met { Meets (lent left.entry) (lent right.entry) result }
    ensures x_part { ox.new ≡ words_of (length ox.old) (bit_xor (value left.entry.x.now) (value right.entry.x.now)) }
    ensures z_part { oz.new ≡ words_of (length oz.old) (bit_xor (value left.entry.z.now) (value right.entry.z.now)) }
{
    sum_into(ox, left.x, right.x);
    sum_into(oz, left.z, right.z);
    meet(left, right)
}

// The product of the left row and then the right one, on `columns` columns. Ok: its phase is in the answer, with
// whether the two rows commute, its X and Z parts are in the first ceil(columns / 64) words of ox and oz, and the words
// past them stay. Err: ox and oz are as they were. They are no struct: one of `&mut` slices would make the contract
// speak of borrows.
pub fn multiply(
    columns: usize,
    left: Row,
    right: Row,
    ox: &mut [u64],
    oz: &mut [u64],
) -> Result<Meeting, Refusal>
    ensures { Multiplied (given columns (lent left.entry) (lent right.entry) ox.old oz.old) result ox.new oz.new }
{
    if refusal::outside(columns) {
        return Err(Refusal::Size);
    }
    let w = dense_block::words_for(columns);
    let lent = [
        Lent(w, left.x.len()),
        Lent(w, left.z.len()),
        Lent(w, right.x.len()),
        Lent(w, right.z.len()),
        Lent(w, ox.len()),
        Lent(w, oz.len()),
    ];
    if refusal::any_short(&lent) {
        return Err(Refusal::Short);
    }
    let left = left.first(w);
    let right = right.first(w);
    if left.is_bad(columns) || right.is_bad(columns) {
        return Err(Refusal::Value);
    }
    Ok(multiply_words(left, right, &mut ox[..w], &mut oz[..w]))
}
