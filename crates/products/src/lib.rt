// Products of rows of a set, with a coefficient.
//
//   product         rows multiplied, with a complex coefficient
//   product_real    the same, with a real coefficient, which comes back marked
//
// Rows are lent as to the calls of `majorana`; at most 512 of them are multiplied, given by their numbers.

#![tactic(auto)]

mod factors;

ghost use Rattle.majorana.specs.Sets.{lent};
ghost use Rattle.products.specs.Products.{Multiplies, RealMultiplies};

use majorana::RowSet;
use pauli::{Coefficient, Marked, Phase};
use refusal::Refusal;

// The product of the rows of these numbers, at most 512, in the order in which they stand: on a state the last acts
// first, and no rows give the identity. Ok: the phase of the product, and the coefficient times i to its letter power;
// the X and Z parts are in the first w words of ox and oz. Err: ox and oz are as they were. They are no struct: one of
// `&mut` slices would make the contract speak of borrows.
pub fn product(
    set: RowSet,
    numbers: &[usize],
    c: Coefficient,
    ox: &mut [u64],
    oz: &mut [u64],
) -> Result<(Phase, Coefficient), Refusal>
    ensures { Multiplies (lent set.entry) numbers.now c ox.old oz.old result ox.new oz.new }
{
    factors::product(set, numbers, c, ox, oz)
}

// The same with a real coefficient, which comes back marked real or imaginary.
pub fn product_real(
    set: RowSet,
    numbers: &[usize],
    c: f64,
    ox: &mut [u64],
    oz: &mut [u64],
) -> Result<(Phase, Marked), Refusal>
    ensures { RealMultiplies (lent set.entry) numbers.now c ox.old oz.old result ox.new oz.new }
{
    factors::product(set, numbers, c, ox, oz)
}
