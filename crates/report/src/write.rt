// The lines of a row report. Each is written whole to the front of a lent buffer, and its length handed back; where it
// does not fit, nothing is written and 0 is handed back. 0 and no None: it is how many bytes were written, and whoever
// writes the front of the buffer out writes as many, none included.
//
//   header, row_line, vacuum_line    the lines of a report, in their order
//   refused_line                     the one line of a refusal
//   whole                            all lines of a report

ghost use Rattle.std.specs.Prelude.{◌≡◌, [], ◌∷◌, ◌++◌, cond, ◌+◌, ◌*◌, ◌≤◌, ◌<◌, length, get_or};
ghost use Rattle.std.proofs.lemmas.List.Edits.{sets};
ghost use Rattle.dense_block.specs.Words.{value};
ghost use Rattle.report.specs.Report.{letter, letters, bits, row_of, row_number, header_line, row_line, vacuum_line, refused_line, row_lines, wrote, written, rows_in, roomy, report_length, reported};

use crate::pieces::{digits, put_number, put_word};

// The rows of n modes on q qubits: rows 0 to 2n - 1, of ceil(q / 64) words each. No `majorana::RowSet`: the text crates
// stand on the trees alone, and would name `majorana` for this one struct.
#[derive(Clone, Copy)]
pub struct Rows<'a> {
    pub modes: usize,
    pub qubits: usize,
    pub x: &'a [u64],
    pub z: &'a [u64],
    pub phases: &'a [u8],
}

// The letter of a column, from its bits in the X part and in the Z part.
fn letter_byte(x: bool, z: bool) -> u8
    ensures { result ≡ letter x z }
{
    match (x, z) {
        (false, false) => b'I',
        (true, false) => b'X',
        (true, true) => b'Y',
        (false, true) => b'Z',
    }
}

// A bit as a byte.
fn bit_byte(on: bool) -> u8
    ensures { result ≡ cond on 49 48 }
{
    if on { b'1' } else { b'0' }
}

// The letters of a row from column 0, and a line feed.
fn put_letters(out: &mut [u8], at: usize, x: &[u64], z: &[u64], q: usize) -> usize
    requires { at + q < length out.old }
    ensures place { result ≡ at + length (letters q (row_of 0 x.now z.now) ++ (10 ∷ [])) }
    ensures bytes { out.new ≡ sets out.old at (letters q (row_of 0 x.now z.now) ++ (10 ∷ [])) }
{
    for j in 0..q {
        out[at + j] = letter_byte(dense_block::get_index(x, j), dense_block::get_index(z, j));
    }
    out[at + q] = b'\n';
    at + q + 1
}

// The bits of a string from column 0, and a line feed. The same loop as above: a function of both would take the byte
// of a column as a closure, of which a proof knows less.
fn put_bits(out: &mut [u8], at: usize, v: &[u64], q: usize) -> usize
    requires { at + q < length out.old }
    ensures place { result ≡ at + length (bits q (value v.now) ++ (10 ∷ [])) }
    ensures bytes { out.new ≡ sets out.old at (bits q (value v.now) ++ (10 ∷ [])) }
{
    for j in 0..q {
        out[at + j] = bit_byte(dense_block::get_index(v, j));
    }
    out[at + q] = b'\n';
    at + q + 1
}

// The number beside the letters of a row.
fn row_number(p: u8, x: &[u64], z: &[u64]) -> usize
    ensures { result ≡ row_number (row_of p x.now z.now) }
{
    p as usize
}

// The line of row k at a place of the buffer; the place after it. The row's parts come apart, as the caller of `row_line`
// has them.
fn put_row(out: &mut [u8], at: usize, k: usize, p: u8, x: &[u64], z: &[u64], q: usize) -> usize
    requires { at + length (row_line q k (row_of p x.now z.now)) ≤ length out.old }
    ensures place { result ≡ at + length (row_line q k (row_of p x.now z.now)) }
    ensures bytes { out.new ≡ sets out.old at (row_line q k (row_of p x.now z.now)) }
{
    let m = row_number(p, x, z);
    let a = put_number(out, at, k, b'\t');
    let b = put_number(out, a, m, b'\t');
    put_letters(out, b, x, z, q)
}

// The vacuum's line at a place of the buffer; the place after it.
fn put_vacuum(out: &mut [u8], at: usize, v: &[u64], q: usize) -> usize
    requires { at + length (vacuum_line q (value v.now)) ≤ length out.old }
    ensures place { result ≡ at + length (vacuum_line q (value v.now)) }
    ensures bytes { out.new ≡ sets out.old at (vacuum_line q (value v.now)) }
{
    let a = put_word(out, at, b"vacuum", b'\t');
    put_bits(out, a, v, q)
}

// The header: modes and qubits.
pub fn header(modes: usize, qubits: usize, out: &mut [u8]) -> usize
    ensures count { result ≡ wrote (header_line modes qubits) out.old }
    ensures bytes { out.new ≡ written (header_line modes qubits) out.old }
{
    let need = digits(modes) + digits(qubits) + 11;
    if out.len() < need {
        return 0;
    }
    let a = put_word(out, 0, b"majorana", b'\t');
    let b = put_number(out, a, modes, b'\t');
    put_number(out, b, qubits, b'\n')
}

// The line of row k, i^p X^x Z^z on q columns.
pub fn row_line(k: usize, p: u8, x: &[u64], z: &[u64], q: usize, out: &mut [u8]) -> usize
    ensures count { result ≡ wrote (row_line q k (row_of p x.now z.now)) out.old }
    ensures bytes { out.new ≡ written (row_line q k (row_of p x.now z.now)) out.old }
{
    let fixed = digits(k) + digits(row_number(p, x, z)) + 3;
    if out.len() < fixed || out.len() - fixed < q {
        return 0;
    }
    put_row(out, 0, k, p, x, z, q)
}

// The vacuum's line, on q columns.
pub fn vacuum_line(v: &[u64], q: usize, out: &mut [u8]) -> usize
    ensures count { result ≡ wrote (vacuum_line q (value v.now)) out.old }
    ensures bytes { out.new ≡ written (vacuum_line q (value v.now)) out.old }
{
    if out.len() < 8 || out.len() - 8 < q {
        return 0;
    }
    put_vacuum(out, 0, v, q)
}

// The line of a refusal.
pub fn refused_line(number: u8, out: &mut [u8]) -> usize
    ensures count { result ≡ wrote (refused_line number) out.old }
    ensures bytes { out.new ≡ written (refused_line number) out.old }
{
    let n = number as usize;
    let need = digits(n) + 9;
    if out.len() < need {
        return 0;
    }
    let a = put_word(out, 0, b"refused", b'\t');
    put_number(out, a, n, b'\n')
}

// Phase k; 0 past the end.
fn phase(phases: &[u8], k: usize) -> u8
    ensures { result ≡ get_or phases.now k 0 }
{
    phases.get(k).copied().unwrap_or(0)
}

// At most 256 modes and 256 qubits, and room for 2n + 2 lines of at most q + 64 bytes.
#[tactic(auto, unfolding(crate::specs::Report::roomy))]
fn is_roomy(n: usize, q: usize, size: usize) -> bool
    ensures { result ≡ roomy n q size }
{
    n <= 256 && q <= 256 && (2 * n + 2) * (q + 64) <= size
}

// The lines of the first `count` rows, from a place of the buffer on; the place after them.
fn put_rows(out: &mut [u8], at: usize, count: usize, rows: Rows) -> usize
    requires { at + count * (rows.qubits + 64) ≤ length out.old }
    ensures room { result ≤ at + count * (rows.entry.qubits + 64) }
    ensures place { result ≡ at + length (row_lines rows.entry.qubits (rows_in rows.entry) count) }
    ensures bytes { out.new ≡ sets out.old at (row_lines rows.entry.qubits (rows_in rows.entry) count) }
{
    let w = dense_block::words_for(rows.qubits);
    let mut place = at;
    for k in 0..count {
        let p = phase(rows.phases, k);
        place = put_row(
            out,
            place,
            k,
            p,
            dense_block::get_term(rows.x, w, k),
            dense_block::get_term(rows.z, w, k),
            rows.qubits,
        );
    }
    place
}

// The report of rows on q qubits, and the vacuum v. It is written whole to the front of a buffer of at least (2n + 2)(q
// + 64) bytes, and its length handed back; in a smaller buffer, or above 256 modes or 256 qubits, nothing is written
// and 0 is handed back.
pub fn whole(rows: Rows, v: &[u64], out: &mut [u8]) -> usize
    ensures count { result ≡ report_length rows.entry.modes rows.entry.qubits (rows_in rows.entry) (value v.now) out.old }
    ensures bytes { out.new ≡ reported rows.entry.modes rows.entry.qubits (rows_in rows.entry) (value v.now) out.old }
{
    if !is_roomy(rows.modes, rows.qubits, out.len()) {
        return 0;
    }
    let a = header(rows.modes, rows.qubits, out);
    let b = put_rows(out, a, 2 * rows.modes, rows);
    put_vacuum(out, b, v, rows.qubits)
}
