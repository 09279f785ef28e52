// Mode enumeration: the modes of a row set in another order.
//
//   apply_mode_enumeration    new mode i has the old rows of mode map[i], and the same vacuum
//
// Rows and vacuum are lent as to the calls of `majorana`; a map is n numbers, a permutation of 0 to n - 1.
// The slices that are written stay parameters of their own: a struct of `&mut` slices would make every contract speak
// of borrows.

#![tactic(auto)]

mod order;

ghost use Rattle.majorana.specs.Sets.{lent};
ghost use Rattle.enumeration.specs.Enumerations.{outs, Enumerated};
ghost use Rattle.enumeration.specs.Lent.{Held};

// with the rows as they are lent, for callers that name this crate alone
pub use majorana::RowSet;
use refusal::{Lent, Refusal};

// 17, 10, 11 and 13, in this order; or the outputs written.
fn enumerate(
    set: RowSet,
    vacuum: &[u64],
    map: &[usize],
    ox: &mut [u64],
    oz: &mut [u64],
    ophases: &mut [u8],
    ovacuum: &mut [u64],
    room: &mut [u64],
) -> Result<(), Refusal>
    requires { Held (lent set) vacuum.now map.now (outs ox.old oz.old ophases.old ovacuum.old room.old) }
    ensures { Enumerated (lent set.entry) vacuum.now map.now (outs ox.old oz.old ophases.old ovacuum.old room.old) result
        (outs ox.new oz.new ophases.new ovacuum.new room.new) }
{
    let w = dense_block::words_for(set.qubits);
    if !order::is_permutation(set.modes, map) {
        dense_block::clear(room, 4 * set.modes * w);
        return Err(Refusal::Value);
    }
    majorana::check_rows(set, vacuum, room)?;
    order::enumerate_blocks(set.modes, 2 * w, map, set.x, ox);
    order::enumerate_blocks(set.modes, 2 * w, map, set.z, oz);
    order::enumerate_blocks(set.modes, 2, map, set.phases, ophases);
    order::put(&mut ovacuum[..w], &vacuum[..w]);
    Ok(())
}

// Checks the map, the rows and the vacuum, and writes the rows and phases of the modes in their new order and the
// vacuum. Refused (17: a bad value, or the map is not a permutation; 10, 11 and 13 by the row check): the four outputs
// are as they were. Works in the first 4·modes·w words of room, which are zero after every call that got past 1 and 2.
pub fn apply_mode_enumeration(
    set: RowSet,
    vacuum: &[u64],
    map: &[usize],
    ox: &mut [u64],
    oz: &mut [u64],
    ophases: &mut [u8],
    ovacuum: &mut [u64],
    room: &mut [u64],
) -> Result<(), Refusal>
    ensures { Enumerated (lent set.entry) vacuum.now map.now (outs ox.old oz.old ophases.old ovacuum.old room.old) result
        (outs ox.new oz.new ophases.new ovacuum.new room.new) }
{
    if set.bad_size() {
        return Err(Refusal::Size);
    }
    let w = dense_block::words_for(set.qubits);
    let rows = 2 * set.modes;
    let words = rows * w;
    if refusal::any_short(&[
        Lent(words, set.x.len()),
        Lent(words, set.z.len()),
        Lent(rows, set.phases.len()),
        Lent(w, vacuum.len()),
        Lent(set.modes, map.len()),
        Lent(words, ox.len()),
        Lent(words, oz.len()),
        Lent(rows, ophases.len()),
        Lent(w, ovacuum.len()),
        Lent(2 * words, room.len()),
    ]) {
        return Err(Refusal::Short);
    }
    enumerate(set, vacuum, map, ox, oz, ophases, ovacuum, room)
}
