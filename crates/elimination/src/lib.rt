// Elimination over GF(2) of rows that lie one after the other in a room that the caller lends. For s upward, the lowest column p of row s is looked for, and row s is
// added to each later row that has column p. No earlier row is touched, and no list of pivots is kept.
//
//   dependent_rows      whether some nonempty choice of the rows has xor zero
//   solve_rows          the solution of equations that is zero in each column equal to a xor of some columns before it
//
// Kept as they were, and why:
//   `row` beside `dense_block::get_term`: measured; its tests of where a row lies make both calls up to four times as
//   long, where `row` has a `requires` in their place
//   `add_row` beside `xor_assign`: measured; `split_at_mut` and a call of that take a tenth more on rows of up to 8 words
//   room, rows and width are parameters: the room is written, and a struct with it would make each contract speak of
//   borrows
//   `solve_rows` answers by a bool and writes v: `RowsSolved` says both, and may not change

#![tactic(auto)]

ghost use Rattle.std.specs.Prelude.{◌≡◌, true, ℕ, ◌+◌, ◌*◌, ◌^◌, ◌<◌, ◌≤◌, length, get_or, MatchOption};
ghost use Rattle.dense_block.specs.Words.{value, term_of};
ghost use Rattle.elimination.specs.Eliminated.{Lowest, Swept, Settled, Eliminated, Substituted};
ghost use Rattle.elimination.specs.Rooms.{row_at, fits, RowsAnswered};
ghost use Rattle.elimination.specs.Steps.{Added, Same, zero_among};
ghost use Rattle.elimination.specs.Solving.{RowsSolved};

// Whether `rows` rows of `width` words, at most `most` of at most `widest`, lie in a room of `size` words.
#[tactic(auto, unfolding(crate::specs::Rooms::fits))]
fn fits(most: usize, widest: usize, rows: usize, width: usize, size: usize) -> bool
    requires { (most ≤ 512) × (widest ≤ 8) }
    ensures { result ≡ fits most widest rows width size }
{
    rows <= most && width <= widest && rows * width <= size
}

// Row r of a room of rows of `width` words.
fn row(room: &[u64], width: usize, r: usize) -> &[u64]
    requires { r * width + width ≤ length room.now }
    ensures { result.now ≡ term_of width room.now r }
{
    let start = r * width;
    &room[start..start + width]
}

// The lowest column of the first n words of a row that is set.
fn lowest(s: &[u64], n: usize) -> Option<usize>
    requires { (n ≤ length s.now) × (n ≤ 8) }
    ensures { MatchOption result (Lowest (64 * n) (value s.now) (64 * n))
        (λ p. (p < 64 * n) × Lowest (64 * n) (value s.now) p) }
{
    for (i, x) in s[..n].iter().enumerate() {
        if *x != 0 {
            return Some(64 * i + x.trailing_zeros() as usize);
        }
    }
    None
}

// Adds `width` words from the word `from` on to those from the word `to` on.
fn add_row(room: &mut [u64], from: usize, to: usize, width: usize)
    requires { (from + width ≤ to) × (to + width ≤ length room.old) }
    ensures { Added from to width room.old room.new }
{
    for i in 0..width {
        room[to + i] ^= room[from + i];
    }
}

// Adds row s to each later row that has column p.
fn sweep(room: &mut [u64], rows: usize, width: usize, s: usize, p: usize)
    requires { (s < rows) × (rows * width ≤ length room.old) }
    ensures { Swept rows s p (row_at width room.old) (row_at width room.new) × Same (rows * width) room.old room.new }
{
    for r in s + 1..rows {
        if dense_block::get_index(row(room, width, r), p) {
            add_row(room, s * width, r * width, width);
        }
    }
}

// Eliminates the rows by the columns of their first `words` words.
fn eliminate(room: &mut [u64], rows: usize, width: usize, words: usize)
    requires { (words ≤ width) × (words ≤ 8) × (rows * width ≤ length room.old) }
    ensures { Eliminated (64 * words) rows (row_at width room.old) (row_at width room.new) rows × Same (rows * width) room.old room.new }
{
    for s in 0..rows {
        if let Some(p) = lowest(row(room, width, s), words) {
            sweep(room, rows, width, s, p);
        }
    }
}

// Whether one of the rows is zero.
fn some_zero(room: &[u64], rows: usize, width: usize) -> bool
    requires { rows * width ≤ length room.now }
    ensures { result ≡ zero_among rows (row_at width room.now) }
{
    for k in (0..rows).rev() {
        if !dense_block::stray(row(room, width, k), 0) {
            return true;
        }
    }
    false
}

// Whether some nonempty choice of the rows in the room, each of `width` words, has xor zero. The rows are zero afterwards, and the words past them stay. More than 512
// rows, rows of more than 8 words, or a room too short for them: false, and the room stays.
// It is not inlined: in its caller the sweep was measured at 1.7 times the instructions.
#[inline(never)]
pub fn dependent_rows(room: &mut [u64], rows: usize, width: usize) -> bool
    ensures { RowsAnswered rows width room.old result room.new }
{
    if !fits(512, 8, rows, width, room.len()) {
        return false;
    }
    eliminate(room, rows, width, width);
    let dependent = some_zero(room, rows, width);
    dense_block::clear(room, rows * width);
    dependent
}

// Substitutes back, from the last row to the first, in rows of `width` words and one more. A row is met by u if they have an even number of common ones; u starts with the
// lowest column of the last word alone, so that column is a row's right side. Where a row is not met, its lowest column is set in u. Says whether each row could be met.
fn substitute(room: &[u64], rows: usize, width: usize, u: &mut [u64]) -> bool
    requires { (rows * (width + 1) ≤ length room.now) × (width < length u.old) × (width ≤ 4) × (value u.old ≡ 0)
        × ((t : ℕ) → t < rows → Settled (64 * width) rows (row_at (width + 1) room.now) t) }
    ensures { Substituted (64 * width) rows (row_at (width + 1) room.now) result (value u.new) × ((i : ℕ) → get_or u.new i 0 < 2 ^ 64) }
{
    dense_block::set_index(u, 64 * width, true);
    for k in (0..rows).rev() {
        let t = row(room, width + 1, k);
        if dense_block::parity_and(t, u) {
            let Some(p) = lowest(t, width) else {
                return false;
            };
            dense_block::set_index(u, p, true);
        }
    }
    true
}

// Solves the equations in the room. Each takes `width` words for e and one more, whose lowest bit is b and whose other bits are not looked at; v meets it if e·v = b. True:
// the first `width` words of v are the solution that is zero in each column equal to a xor of some columns before it. False: there is none, and v stays. The equations
// are zero afterwards, and the words past them stay. More than 256 equations, more than 4 words, a room or v too short for them: false, and all stays.
pub fn solve_rows(room: &mut [u64], rows: usize, width: usize, v: &mut [u64]) -> bool
    ensures { RowsSolved rows width room.old v.old result v.new room.new }
{
    if width > 4 || !fits(256, 5, rows, width + 1, room.len()) || v.len() < width {
        return false;
    }
    eliminate(room, rows, width + 1, width);
    let mut u = [0u64; 5];
    let found = substitute(room, rows, width, &mut u);
    dense_block::clear(room, rows * (width + 1));
    if found {
        dense_block::copy(&mut v[..width], &u);
    }
    found
}
