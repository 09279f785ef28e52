// The rows of a set multiplied one after the other.

ghost use Rattle.std.specs.Prelude.{◌≡◌, false, ◌*◌, ◌≤◌, ◌<◌, length, bit_xor};
ghost use Rattle.algebra.specs.Rows.{times};
ghost use Rattle.dense_block.specs.Words.{value, filled};
ghost use Rattle.pauli.specs.Phases.{row_power};
ghost use Rattle.majorana.specs.Sets.{lent};
ghost use Rattle.majorana.specs.HeldRows.{modes_of};
ghost use Rattle.products.specs.Products.{product_of, some_high, Makes};
ghost use Rattle.products.specs.Phases.{phase_of};
ghost use Rattle.products.specs.Private.{row_of};

use majorana::{RowSet, Rows};
use pauli::{Phase, Row, Turn};
use refusal::Refusal;

// Whether a row number is at or above `rows`.
fn too_high(rows: usize, numbers: &[usize]) -> bool
    ensures { result ≡ some_high rows numbers.now }
{
    numbers.iter().any(|k| rows <= *k)
}

// A row's part added to the product's.
fn add(part: &mut [u64], more: &[u64])
    requires { length more.now ≤ length part.old }
    ensures { value part.new ≡ bit_xor (value part.old) (value more.now) }
{
    dense_block::xor_assign(part, more);
}

// The product so far, i^f X^ax Z^az, times row k.
fn times(rows: &Rows, k: usize, f: Phase, ax: &mut [u64], az: &mut [u64]) -> Phase
    requires { (k < 2 * rows.now.set.modes) × (length ax.old ≡ rows.now.w) × (length az.old ≡ rows.now.w) }
    ensures { row_of result.power ax.new az.new
        ≡ times (row_of f.power ax.old az.old) ((modes_of rows.now).row k) }
{
    // there is one: k is below 2n
    let row = rows.get(k).unwrap();
    let so_far = Row {
        phase: f,
        x: ax,
        z: az,
    };
    let met = pauli::meet(so_far, row);
    add(ax, row.x);
    add(az, row.z);
    met.phase
}

// The product of the rows of these numbers, from the left, in ax and az, which hold the identity.
fn times_rows(rows: &Rows, numbers: &[usize], ax: &mut [u64], az: &mut [u64]) -> Phase
    requires { (some_high (2 * rows.now.set.modes) numbers.now ≡ false) × (length ax.old ≡ rows.now.w)
        × (length az.old ≡ rows.now.w) × (value ax.old ≡ 0) × (value az.old ≡ 0) }
    ensures { row_of result.power ax.new az.new ≡ product_of (modes_of rows.now) numbers.now }
{
    let mut f = Phase::default();
    for k in numbers {
        f = times(rows, *k, f, ax, az);
    }
    f
}

// The same in ox and oz, by words of its own: its phase and its letter power.
fn product_in(rows: &Rows, numbers: &[usize], ox: &mut [u64], oz: &mut [u64]) -> (Phase, Phase)
    requires { (some_high (2 * rows.now.set.modes) numbers.now ≡ false)
        × (rows.now.w ≤ length ox.old) × (rows.now.w ≤ length oz.old) }
    ensures phase { result.0.power ≡ (product_of (modes_of rows.now) numbers.now).p }
    ensures letters { result.1.power ≡ row_power (product_of (modes_of rows.now) numbers.now) }
    ensures x_part { ox.new ≡ filled rows.now.w (product_of (modes_of rows.now) numbers.now).x ox.old }
    ensures z_part { oz.new ≡ filled rows.now.w (product_of (modes_of rows.now) numbers.now).z oz.old }
{
    let w = rows.w;
    let mut ax = [0u64; 4];
    let mut az = [0u64; 4];
    let ax = &mut ax[..w];
    let az = &mut az[..w];
    let f = times_rows(rows, numbers, ax, az);
    ox[..w].copy_from_slice(ax);
    oz[..w].copy_from_slice(az);
    let product = Row {
        phase: f,
        x: ax,
        z: az,
    };
    (f, product.letter_power())
}

// The phase of the product of rows of a set and its letter power, with a coefficient whose parts are finite or not: all
// that does not depend on the kind of coefficient, so that it is compiled once.
fn multiply(
    set: RowSet,
    numbers: &[usize],
    finite: bool,
    ox: &mut [u64],
    oz: &mut [u64],
) -> Result<(Phase, Phase), Refusal>
    ensures { Makes finite phase_of (phase_of 0) (lent set.entry) numbers.now ox.old oz.old result ox.new oz.new }
{
    if set.bad_size() || 512 < numbers.len() {
        return Err(Refusal::Size);
    }
    let w = dense_block::words_for(set.qubits);
    if ox.len() < w || oz.len() < w {
        return Err(Refusal::Short);
    }
    let rows = set.rows(w)?;
    if too_high(2 * set.modes, numbers) || !finite {
        return Err(Refusal::Value);
    }
    Ok(product_in(&rows, numbers, ox, oz))
}

// The product of rows of a set, with a coefficient of either kind.
pub fn product<T: Turn>(
    set: RowSet,
    numbers: &[usize],
    c: T,
    ox: &mut [u64],
    oz: &mut [u64],
) -> Result<(Phase, T::Turned), Refusal>
    ensures { (none : T.Turned)
        → Makes (T.finite c) (λ k. T.turned k c) none (lent set.entry) numbers.now ox.old oz.old result ox.new oz.new }
{
    let (f, letters) = multiply(set, numbers, c.is_finite(), ox, oz)?;
    Ok((f, c.turn(letters)))
}
