// The row check: the first two rows that commute, rows dependent, the vacuum rule.

ghost use Rattle.std.specs.Prelude.{◌≡◌, ◌||◌, ◌++◌, ◌+◌, ◌*◌, ◌≤◌, ◌<◌, length};
ghost use Rattle.refusal.specs.Numbers.{answered};
ghost use Rattle.algebra.specs.Modes.{commuting_pair};
ghost use Rattle.algebra.specs.Choices.{dependent};
ghost use Rattle.dense_block.specs.Words.{value, term_of, with_term, strays};
ghost use Rattle.majorana.specs.Sets.{modes_in, bad_in};
ghost use Rattle.majorana.specs.Held.{FitsIn};
ghost use Rattle.majorana.specs.HeldRows.{modes_of};
ghost use Rattle.majorana.specs.Rooms.{pair_of, Loaded, Same, task_checked, value_checked};

use crate::rows::Rows;
use crate::{RowSet, rows};
use pauli::Row;
use refusal::Refusal;

// The first two rows that commute, in row order. The scope binds the loops over j and k, left by a label with the pair.
fn first_commuting(rows: &Rows) -> Option<(usize, usize)>
    ensures { pair_of result ≡ commuting_pair (modes_of rows.now) }
{
    let count = 2 * rows.set.modes;
    let mut found = None;
    'search: for j in 0..count {
        let left = rows.row(j);
        for k in j + 1..count {
            if pauli::meet(left, rows.row(k)).commute {
                found = Some((j, k));
                break 'search;
            }
        }
    }
    found
}

// The two parts of a row one behind the other.
fn join(part: &mut [u64], w: usize, row: Row)
    requires { (length row.x.now ≡ w) × (length row.z.now ≡ w) × (length part.old ≡ w + w) }
    ensures { part.new ≡ row.entry.x.now ++ row.entry.z.now }
{
    rows::put(&mut part[..w], row.x);
    rows::put(&mut part[w..], row.z);
}

// Row r of the room made row r's X part and then its Z part.
fn load_row(rows: &Rows, r: usize, room: &mut [u64])
    requires { (r < 2 * rows.now.set.modes) × (2 * rows.now.set.modes * (rows.now.w + rows.now.w) ≤ length room.old) }
    ensures { room.new ≡ with_term (rows.now.w + rows.now.w) room.old r
        (term_of rows.now.w rows.now.set.x.now r ++ term_of rows.now.w rows.now.set.z.now r) }
{
    let width = rows.w + rows.w;
    let a = r * width;
    join(&mut room[a..a + width], rows.w, rows.row(r));
}

// All rows into the room.
fn load_rows(rows: &Rows, room: &mut [u64])
    requires { 2 * rows.now.set.modes * (rows.now.w + rows.now.w) ≤ length room.old }
    ensures { Loaded (2 * rows.now.set.modes) rows.now.w rows.now.set.x.now rows.now.set.z.now room.old room.new }
{
    for r in 0..2 * rows.set.modes {
        load_row(rows, r, room);
    }
}

// Whether the rows are dependent. The room is left with what is behind the rows as it was.
fn rows_dependent(rows: &Rows, room: &mut [u64]) -> bool
    requires { 2 * rows.now.set.modes * (rows.now.w + rows.now.w) ≤ length room.old }
    ensures { (result ≡ dependent (modes_of rows.now))
        × Same (2 * rows.now.set.modes * (rows.now.w + rows.now.w)) room.old room.new }
{
    load_rows(rows, room);
    elimination::dependent_rows(room, 2 * rows.set.modes, rows.w + rows.w)
}

// 10, 11 and 13, in this order.
pub fn check_held(rows: &Rows, v: &[u64], room: &mut [u64]) -> Result<(), Refusal>
    requires { (length v.now ≡ rows.now.w) × (2 * rows.now.set.modes * (rows.now.w + rows.now.w) ≤ length room.old) }
    ensures { (answered result ≡ task_checked (modes_of rows.now) (value v.now))
        × Same (2 * rows.now.set.modes * (rows.now.w + rows.now.w)) room.old room.new }
{
    if let Some((j, k)) = first_commuting(rows) {
        return Err(Refusal::Commuting(j, k));
    }
    if rows_dependent(rows, room) {
        return Err(Refusal::Dependent);
    }
    if !rows.vacuum_rule(v) {
        return Err(Refusal::Vacuum);
    }
    Ok(())
}

// 17, 10, 11 and 13, in this order.
pub fn check_lent(set: RowSet, w: usize, v: &[u64], room: &mut [u64]) -> Result<(), Refusal>
    requires { FitsIn set w × (length v.now ≡ w) × (2 * set.modes * (w + w) ≤ length room.old) }
    ensures { (answered result ≡ value_checked (bad_in set.entry w || strays v.now set.entry.qubits)
        (task_checked (modes_in set.entry w) (value v.now)))
        × Same (2 * set.entry.modes * (w + w)) room.old room.new }
{
    if set.bad_rows(w) || dense_block::stray(v, set.qubits) {
        return Err(Refusal::Value);
    }
    check_held(&Rows::of(set, w), v, room)
}
