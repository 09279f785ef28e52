// Vacuum solving: one equation a mode, e·v = d/2.

ghost use Rattle.std.specs.Prelude.{◌≡◌, [], ◌∷◌, ◌++◌, ◌+◌, ◌*◌, ◌≤◌, ◌<◌, length};
ghost use Rattle.algebra.specs.Solving.{solvable, solved_vacuum};
ghost use Rattle.dense_block.specs.Words.{xors, with_term};
ghost use Rattle.elimination.specs.Solving.{written};
ghost use Rattle.majorana.specs.Sets.{modes_in, bad_in};
ghost use Rattle.majorana.specs.Held.{FitsIn};
ghost use Rattle.majorana.specs.HeldRows.{modes_of};
ghost use Rattle.majorana.specs.Rooms.{Same, equation_of, EquationsLoaded, SolvedLent, NewLent};

use crate::rows::Rows;
use crate::{RowSet, check, rows};
use refusal::Refusal;

// The xor of two rows of w words, and one word more.
fn equation(part: &mut [u64], w: usize, a: &[u64], b: &[u64], right: u64)
    requires { (length a.now ≡ w) × (length b.now ≡ w) × (length part.old ≡ w + 1) }
    ensures { part.new ≡ xors a.now b.now ++ (right ∷ []) }
{
    rows::put(&mut part[..w], a);
    dense_block::xor_assign(&mut part[..w], b);
    part[w] = right;
}

// Equation i of the room made mode i's: e in w words, d/2 in one more. The part is taken by its place: of what is written
// through `chunks_exact_mut` a proof knows nothing.
fn load_equation(rows: &Rows, i: usize, room: &mut [u64])
    requires { (i < rows.now.set.modes) × (rows.now.set.modes * (rows.now.w + 1) ≤ length room.old) }
    ensures { room.new ≡ with_term (rows.now.w + 1) room.old i (equation_of rows.now.set.modes rows.now.w
        rows.now.set.x.now rows.now.set.z.now rows.now.set.phases.now i) }
{
    let half = u64::from(rows.difference(i) / 2);
    let width = rows.w + 1;
    let a = i * width;
    equation(
        &mut room[a..a + width],
        rows.w,
        rows.row(2 * i).z,
        rows.row(2 * i + 1).z,
        half,
    );
}

// All equations into the room.
fn load_equations(rows: &Rows, room: &mut [u64])
    requires { rows.now.set.modes * (rows.now.w + 1) ≤ length room.old }
    ensures { EquationsLoaded rows.now.set.modes rows.now.w
        rows.now.set.x.now rows.now.set.z.now rows.now.set.phases.now room.old room.new }
{
    for i in 0..rows.set.modes {
        load_equation(rows, i, room);
    }
}

// Whether a string of the set's qubits meets the vacuum rule; then the solution is in the first w words of v. The room is
// left with what is behind the equations as it was.
fn solve_held(rows: &Rows, v: &mut [u64], room: &mut [u64]) -> bool
    requires { (rows.now.set.qubits ≤ 64 * rows.now.w) × (rows.now.w ≤ length v.old)
        × (rows.now.set.modes * (rows.now.w + 1) ≤ length room.old) }
    ensures { (result ≡ solvable (modes_of rows.now) rows.now.set.qubits)
        × (v.new ≡ written rows.now.w (solved_vacuum (modes_of rows.now) rows.now.set.qubits) v.old)
        × Same (rows.now.set.modes * (rows.now.w + 1)) room.old room.new }
{
    if !rows.all_paired() {
        return false;
    }
    load_equations(rows, room);
    elimination::solve_rows(room, rows.set.modes, rows.w, v)
}

// 17 and 12, in this order.
pub fn solve_lent(set: RowSet, w: usize, v: &mut [u64], room: &mut [u64]) -> Result<(), Refusal>
    requires { FitsIn set w × (set.qubits ≤ 64 * w) × (w ≤ length v.old)
        × (set.modes * (w + 1) ≤ length room.old) }
    ensures { SolvedLent (bad_in set.entry w) (modes_in set.entry w) set.entry.qubits w
        v.old room.old result v.new room.new }
{
    if set.bad_rows(w) {
        return Err(Refusal::Value);
    }
    if solve_held(&Rows::of(set, w), v, room) {
        Ok(())
    } else {
        Err(Refusal::NoVacuum)
    }
}

// 17, 12, 10, 11 and 13, in this order, with the string that is found, which is copied to the first w words of out if none
// refuses.
pub fn new_lent(set: RowSet, w: usize, out: &mut [u64], room: &mut [u64]) -> Result<(), Refusal>
    requires { FitsIn set w × (set.qubits ≤ 64 * w) × (w ≤ length out.old)
        × (set.modes * (w + 1) ≤ 2 * set.modes * (w + w)) × (2 * set.modes * (w + w) ≤ length room.old) }
    ensures { NewLent (bad_in set.entry w) (modes_in set.entry w) set.entry.qubits w
        out.old room.old result out.new room.new }
{
    if set.bad_rows(w) {
        return Err(Refusal::Value);
    }
    let rows = Rows::of(set, w);
    let mut string = [0u64; 4];
    let v = &mut string[..w];
    if !solve_held(&rows, v, room) {
        return Err(Refusal::NoVacuum);
    }
    check::check_held(&rows, v, room)?;
    out[..w].copy_from_slice(v);
    Ok(())
}
