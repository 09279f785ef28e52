// Flatpack text read byte by byte, in chunks of any length and in fixed memory.
//
//   start, feed, finish    the state before the first byte, after a chunk more, and what the whole text is
//   read                   the three at once, over a text that is lent whole

ghost use Rattle.std.specs.Prelude.{◌≡◌, [], Some, None};
ghost use Rattle.flatpack_text.specs.Text.{as_qubit, as_slot};
ghost use Rattle.flatpack_text.specs.Machine.{slot_number, stopped, on_line, after};
ghost use Rattle.flatpack_text.specs.Moves.{more, next, tabbed, line_ended, kept_at, line_kept, step, step_kept};
ghost use Rattle.flatpack_text.specs.Calls.{Feeds, Finishes, Reads};

use crate::puts::put;

// What is read of a field. Plainer were a line that is there or not, as an Option, and a field without Bad, or an enum
// for the fields that are ended. Each was tried: `feed` then takes from 25% to 95% more instructions.
#[derive(Clone, Copy, Debug, PartialEq, Eq)]
pub enum Field {
    // No byte yet.
    Nothing,
    // A dash: an empty slot.
    Dash,
    // A number of at most 65,535.
    Number(u16),
    // Something else.
    Bad,
}

// What is read of a text: the entries of the whole lines, and the fields of the line that is not ended.
#[derive(Clone, Copy, Debug, PartialEq, Eq)]
pub struct State {
    // How many entries, counted as far as 1,000,000,000.
    pub entries: usize,
    // How many fields of the line a tab ended.
    pub fields: usize,
    // Those of them that are kept: the qubit, and a slot's number plus 1, or 0 if it is empty, as the table has them.
    pub qubit: usize,
    pub x: usize,
    pub y: usize,
    // The field that is not ended; Bad from the first fault on, and then the fields above are 0.
    pub field: Field,
}

// A text that is not well formed: the first line that is no entry, counted from 1.
#[derive(Clone, Copy, Debug, PartialEq, Eq)]
pub struct Malformed {
    pub line: usize,
}

// One more, as far as 1,000,000,000.
fn count_on(n: usize) -> usize
    ensures { result ≡ more n }
{
    if n < 1_000_000_000 { n + 1 } else { n }
}

// A fault after n entries.
fn stop(n: usize) -> State
    ensures { result ≡ stopped n }
{
    State {
        entries: n,
        fields: 0,
        qubit: 0,
        x: 0,
        y: 0,
        field: Field::Bad,
    }
}

// A line of which k fields are ended, with the field that is not.
fn line(n: usize, k: usize, q: usize, x: usize, y: usize, f: Field) -> State
    ensures { result ≡ record { entries = n; fields = k; qubit = q; x = x; y = y; field = f } }
{
    State {
        entries: n,
        fields: k,
        qubit: q,
        x,
        y,
        field: f,
    }
}

// The state with another field that is not ended, or the fault if that is bad. An arm for each field: with one arm for
// the good ones and `..s`, `feed` takes 23% more instructions.
fn with_field(s: State, f: Field) -> State
    ensures { result ≡ on_line s.entries s.fields s.qubit s.x s.y f }
{
    match f {
        Field::Nothing => line(s.entries, s.fields, s.qubit, s.x, s.y, f),
        Field::Dash => line(s.entries, s.fields, s.qubit, s.x, s.y, f),
        Field::Number(_) => line(s.entries, s.fields, s.qubit, s.x, s.y, f),
        Field::Bad => stop(s.entries),
    }
}

// A number with one digit more.
#[tactic(auto, unfolding(crate::specs::Moves::next, crate::specs::Text::is_digit))]
fn next_digit(n: u16, b: u8) -> Field
    ensures { result ≡ next (Field.Number n) b }
{
    if !b.is_ascii_digit() || n == 0 {
        return Field::Bad;
    }
    let m = 10 * (n as u32) + ((b - b'0') as u32);
    if m <= 65535 {
        Field::Number(m as u16)
    } else {
        Field::Bad
    }
}

// The first byte of a field.
#[tactic(auto, unfolding(crate::specs::Moves::next, crate::specs::Text::is_digit))]
fn first_byte(b: u8) -> Field
    ensures { result ≡ next Field.Nothing b }
{
    match b {
        b'-' => Field::Dash,
        _ if b.is_ascii_digit() => Field::Number((b - b'0') as u16),
        _ => Field::Bad,
    }
}

// A field with one byte more.
#[tactic(auto, unfolding(crate::specs::Moves::next))]
fn next_byte(f: Field, b: u8) -> Field
    ensures { result ≡ next f b }
{
    match f {
        Field::Nothing => first_byte(b),
        Field::Number(n) => next_digit(n, b),
        Field::Dash | Field::Bad => Field::Bad,
    }
}

// A field as the qubit.
fn qubit(f: Field) -> Option<usize>
    ensures { result ≡ as_qubit f Some None }
{
    match f {
        Field::Number(q) => Some(q as usize),
        _ => None,
    }
}

// A field as a slot of the table: its number plus 1, or 0 for a dash.
fn slot(f: Field) -> Option<usize>
    ensures { result ≡ as_slot f (λ z. Some (slot_number z)) None }
{
    match f {
        Field::Dash => Some(0),
        Field::Number(k) => Some((k as usize) + 1),
        _ => None,
    }
}

// A tab: the qubit, X or Y is ended. With `?` in a function of its own, and `unwrap_or` here, `feed` takes 20% to 30%
// more instructions.
fn tab(s: State) -> State
    ensures { result ≡ tabbed s }
{
    let n = s.entries;
    match s.fields {
        0 => match qubit(s.field) {
            Some(q) => line(n, 1, q, 0, 0, Field::Nothing),
            None => stop(n),
        },
        1 => match slot(s.field) {
            Some(x) => line(n, 2, s.qubit, x, 0, Field::Nothing),
            None => stop(n),
        },
        2 => match slot(s.field) {
            Some(y) => line(n, 3, s.qubit, s.x, y, Field::Nothing),
            None => stop(n),
        },
        _ => stop(n),
    }
}

// Entry n of the table, if it is one of the first 256.
fn keep(table: &mut [usize], n: usize, q: usize, x: usize, y: usize, z: usize)
    ensures { table.new ≡ kept_at n q x y z table.old }
{
    if n < 256 {
        let at = 4 * n;
        put(table, at, q);
        put(table, at + 1, x);
        put(table, at + 2, y);
        put(table, at + 3, z);
    }
}

// A line feed.
fn line_feed(s: State, table: &mut [usize]) -> State
    ensures state { result ≡ line_ended s }
    ensures entries { table.new ≡ line_kept s table.old }
{
    let (3, Some(z)) = (s.fields, slot(s.field)) else {
        return stop(s.entries);
    };
    keep(table, s.entries, s.qubit, s.x, s.y, z);
    line(count_on(s.entries), 0, 0, 0, 0, Field::Nothing)
}

// One byte. With a `match` on it in place of the two returns, `feed` takes 12% more instructions where numbers are long.
fn step_byte(s: State, b: u8, table: &mut [usize]) -> State
    ensures state { result ≡ step s b }
    ensures entries { table.new ≡ step_kept s b table.old }
{
    if b == b'\t' {
        return tab(s);
    }
    if b == b'\n' {
        return line_feed(s, table);
    }
    with_field(s, next_byte(s.field, b))
}

// The state before the first byte.
pub fn start() -> State
    ensures { result ≡ after [] }
{
    line(0, 0, 0, 0, 0, Field::Nothing)
}

// The state after a chunk more. The table gets the first 256 entries as their lines end, four numbers an entry: the
// qubit, and for X, Y and Z the slot's number plus 1, or 0 if it is empty. After a text t, a chunk leads to what the
// definition says of the text with the chunk added. The codes of the table stay: the clause says them of the caller's
// slice (`kept`).
#[tactic(auto, using(crate::proofs::Reading::feeds))]
pub fn feed(s: State, chunk: &[u8], table: &mut [usize]) -> State
    ensures { Feeds s chunk.now table.old result table.new }
{
    let mut at = s;
    for b in chunk {
        at = step_byte(at, *b, table);
    }
    at
}

// How many entries the whole text has, from the state after it, or its first line that is none.
pub fn finish(s: State) -> Result<usize, Malformed>
    ensures { Finishes s result }
{
    match (s.fields, s.field) {
        (0, Field::Nothing) => Ok(s.entries),
        _ => Err(Malformed {
            line: count_on(s.entries),
        }),
    }
}

// The same of a text that is lent whole, with its first 256 entries in the table.
pub fn read(text: &[u8], table: &mut [usize]) -> Result<usize, Malformed>
    ensures { Reads text.now table.old result table.new }
{
    finish(feed(start(), text, table))
}
