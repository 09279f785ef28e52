// Row sets: n modes on q qubits, two rows a mode.
//
//   RowSet::bad_size             whether 1 refuses its sizes
//   RowSet::rows_short, bad_rows the part of 2 and of 17 that is about the rows
//   rows_short                   the part of 2, of lengths alone
//   RowSet::rows                 the rows that pass both
//   check_rows                   10, 11 or 13 unless rows anticommute, are independent, and the vacuum rule holds
//   check_vacuum                 13 unless the vacuum rule holds at the given string
//   determine_vacuum_state       the string that meets the vacuum rule, or 12
//   new                          the vacuum of a row set that passes all checks: 12, 10, 11 or 13
//   try_encode                   an occupation list to a string and its phase
//   decode_zbasis_state          a string back to the list
//
// A set is lent with X parts and Z parts of w = ceil(q/64) words a row, 2n·w words each, and 2n phases; strings have w
// words. Words past the lengths stated are not looked at and stay. Each call tests its input itself, in the order 1, 2, 17
// and then its task's own. Outputs are parameters of their own: of a struct with `&mut` in it every contract would speak of
// borrows.

#![tactic(auto)]

mod check;
mod coding;
mod mode;
mod rows;
mod vacuum;
mod walk;

ghost use Rattle.std.specs.Prelude.{◌≡◌, length};
ghost use Rattle.refusal.specs.Numbers.{answered};
ghost use Rattle.majorana.specs.Sets.{lent, bad_size, many_or_short, many_or_bad};
ghost use Rattle.majorana.specs.HeldRows.{RowsMade};
ghost use Rattle.majorana.specs.Checks.{vacuum_checked, RowsChecked};
ghost use Rattle.majorana.specs.Vacuums.{Solves, Makes};
ghost use Rattle.majorana.specs.Codes.{Encodes, Decodes};

use pauli::Phase;
use refusal::{Lent, Refusal};
pub use rows::Rows;

// A row set as it is lent.
#[derive(Clone, Copy)]
pub struct RowSet<'a> {
    pub modes: usize,
    pub qubits: usize,
    pub x: &'a [u64],
    pub z: &'a [u64],
    pub phases: &'a [u8],
}

// Whether X parts, Z parts and phases of these lengths are too short for rows of w words a part; more than 256 modes, or
// more than 4 words, are too much for any lengths.
pub fn rows_short(modes: usize, w: usize, x: usize, z: usize, phases: usize) -> bool
    ensures { result ≡ many_or_short modes w x z phases }
{
    if 256 < modes || 4 < w {
        return true;
    }
    let rows = 2 * modes;
    let size = rows * w;
    refusal::any_short(&[Lent(size, x), Lent(size, z), Lent(rows, phases)])
}

// The part of the tests 1, 2 and 17 that is about the rows. They ask nothing, and are true as well of what 1 refuses.
impl<'a> RowSet<'a> {
    // Whether modes or qubits are 0 or above 256.
    pub fn bad_size(&self) -> bool
        ensures { result ≡ bad_size self.now.modes self.now.qubits }
    {
        refusal::outside(self.modes) || refusal::outside(self.qubits)
    }

    // Whether the slices are too short for rows of w words a part, by their lengths.
    pub fn rows_short(&self, w: usize) -> bool
        ensures { result ≡ many_or_short self.now.modes w (length self.now.x.now) (length self.now.z.now)
            (length self.now.phases.now) }
    {
        rows_short(self.modes, w, self.x.len(), self.z.len(), self.phases.len())
    }

    // Whether one of the rows has a phase above 3 or a bit past the last column, or there are more than 256 modes. What
    // lies past the end of a slice counts as 0.
    pub fn bad_rows(&self, w: usize) -> bool
        ensures { result ≡ many_or_bad self.now.modes self.now.qubits w self.now.x.now self.now.z.now self.now.phases.now }
    {
        if 256 < self.modes {
            return true;
        }
        let count = 2 * self.modes;
        rows::bad_phase(self.phases, count)
            || dense_block::stray_block(self.x, w, count, self.qubits)
            || dense_block::stray_block(self.z, w, count, self.qubits)
    }

    // The rows, of w words a part: 2 if the slices are too short for them, 17 if one of them is bad.
    pub fn rows(&self, w: usize) -> Result<Rows<'a>, Refusal>
        ensures { RowsMade self.now w result }
    {
        if self.rows_short(w) {
            return Err(Refusal::Short);
        }
        if self.bad_rows(w) {
            return Err(Refusal::Value);
        }
        Ok(Rows::of(*self, w))
    }
}

// Whether the vacuum rule holds at `vacuum`.
pub fn check_vacuum(set: RowSet, vacuum: &[u64]) -> Result<(), Refusal>
    ensures { answered result ≡ vacuum_checked (lent set.entry) vacuum.now }
{
    if set.bad_size() {
        return Err(Refusal::Size);
    }
    let w = dense_block::words_for(set.qubits);
    if rows::short(set, w, &[Lent(w, vacuum.len())]) {
        return Err(Refusal::Short);
    }
    let v = &vacuum[..w];
    if set.bad_rows(w) || dense_block::stray(v, set.qubits) {
        return Err(Refusal::Value);
    }
    let rows = Rows::of(set, w);
    if !rows.vacuum_rule(v) {
        return Err(Refusal::Vacuum);
    }
    Ok(())
}

// Whether any two rows anticommute (10, with the first pair that does not), no nonempty choice of rows has xor zero (11)
// and the vacuum rule holds (13). Works in the first 4·modes·w words of room, which are zero after every call that got
// past 1 and 2.
pub fn check_rows(set: RowSet, vacuum: &[u64], room: &mut [u64]) -> Result<(), Refusal>
    ensures { RowsChecked (lent set.entry) vacuum.now room.old result room.new }
{
    if set.bad_size() {
        return Err(Refusal::Size);
    }
    let w = dense_block::words_for(set.qubits);
    let need = 4 * set.modes * w;
    if rows::short(set, w, &[Lent(w, vacuum.len()), Lent(need, room.len())]) {
        return Err(Refusal::Short);
    }
    let answer = check::check_lent(set, w, &vacuum[..w], room);
    dense_block::clear(room, need);
    answer
}

// The vacuum: the string that meets the vacuum rule and is zero in each column equal to a xor of some columns before it,
// or 12 if no string meets the rule. Looks at pairs only, and does not test anticommutation. Done: the string is in the
// first w words of vacuum. Refused: vacuum is as it was. Works in the first modes·(w + 1) words of room, which are zero
// after every call that got past 1 and 2.
pub fn determine_vacuum_state(
    set: RowSet,
    vacuum: &mut [u64],
    room: &mut [u64],
) -> Result<(), Refusal>
    ensures { Solves (lent set.entry) vacuum.old room.old result vacuum.new room.new }
{
    if set.bad_size() {
        return Err(Refusal::Size);
    }
    let w = dense_block::words_for(set.qubits);
    let need = set.modes * (w + 1);
    if rows::short(set, w, &[Lent(w, vacuum.len()), Lent(need, room.len())]) {
        return Err(Refusal::Short);
    }
    let answer = vacuum::solve_lent(set, w, vacuum, room);
    dense_block::clear(room, need);
    answer
}

// Solves the vacuum, checks the rows, then checks the vacuum: 12, 10, 11 and 13, in this order. Done: the vacuum is in
// the first w words of vacuum. Refused: vacuum is as it was. Works in the first 4·modes·w words of room, which are zero
// after every call that got past 1 and 2.
pub fn new(set: RowSet, vacuum: &mut [u64], room: &mut [u64]) -> Result<(), Refusal>
    ensures { Makes (lent set.entry) vacuum.old room.old result vacuum.new room.new }
{
    if set.bad_size() {
        return Err(Refusal::Size);
    }
    let w = dense_block::words_for(set.qubits);
    let need = 4 * set.modes * w;
    if rows::short(set, w, &[Lent(w, vacuum.len()), Lent(need, room.len())]) {
        return Err(Refusal::Short);
    }
    let answer = vacuum::new_lent(set, w, vacuum, room);
    dense_block::clear(room, need);
    answer
}

// Encodes an occupation list of `modes` bits, from the highest occupied mode down, starting at `vacuum` with phase 0.
// Done: the phase is in the answer and the string in the first w words of out. Refused (15: a condition is not met): out
// is as it was.
pub fn try_encode(
    set: RowSet,
    vacuum: &[u64],
    list: &[u64],
    out: &mut [u64],
) -> Result<Phase, Refusal>
    ensures { Encodes (lent set.entry) vacuum.now list.now out.old result out.new }
{
    if set.bad_size() {
        return Err(Refusal::Size);
    }
    let w = dense_block::words_for(set.qubits);
    let lw = dense_block::words_for(set.modes);
    let lent = [
        Lent(w, vacuum.len()),
        Lent(lw, list.len()),
        Lent(w, out.len()),
    ];
    if rows::short(set, w, &lent) {
        return Err(Refusal::Short);
    }
    let v = &vacuum[..w];
    let l = &list[..lw];
    if set.bad_rows(w) || dense_block::stray(v, set.qubits) || dense_block::stray(l, set.modes) {
        return Err(Refusal::Value);
    }
    coding::encode(&Rows::of(set, w), v, l, out)
}

// Decodes a string of `qubits` bits. Done: the list is in the first ceil(modes/64) words of out. Refused (14: the string
// does not lead back to `vacuum`, or a mode's X parts differ, or its d is odd): out is as it was.
pub fn decode_zbasis_state(
    set: RowSet,
    vacuum: &[u64],
    string: &[u64],
    out: &mut [u64],
) -> Result<(), Refusal>
    ensures { Decodes (lent set.entry) vacuum.now string.now out.old result out.new }
{
    if set.bad_size() {
        return Err(Refusal::Size);
    }
    let w = dense_block::words_for(set.qubits);
    let lw = dense_block::words_for(set.modes);
    let lent = [
        Lent(w, vacuum.len()),
        Lent(w, string.len()),
        Lent(lw, out.len()),
    ];
    if rows::short(set, w, &lent) {
        return Err(Refusal::Short);
    }
    let v = &vacuum[..w];
    let s = &string[..w];
    if set.bad_rows(w) || dense_block::stray(v, set.qubits) || dense_block::stray(s, set.qubits) {
        return Err(Refusal::Value);
    }
    coding::decode(&Rows::of(set, w), v, s, out)
}
