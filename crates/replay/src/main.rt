// Replays a fixed list of cases and writes the library's answers. Standard input has a case a line, in hexadecimal
// numbers: the call, modes, qubits, and what the call takes. A line of the answers has the number handed back and, if
// it is done, the values. The file `stdout` beside src/ has the answers of the Rust to the same cases, so that the two
// are compared wherever this program is run (oracle/list made both files). For `multiply` they are those of a stand-in
// (oracle/README.md).
//
//   0 determine_vacuum_state, 1 new, 2 check_rows, 3 try_encode, 4 decode_zbasis_state, 5 apply_mode_enumeration,
//   6 product_real, 7 maxnto, 8 from_name, 9 from_flatpack, a from_flatpack_naive, b multiply (two rows; modes is 1,
//   and not looked at)

#![tactic(auto)]

mod built; // built.rt: the calls that build rows, and their answers written
mod rows; // rows.rt: how much of its buffers a case takes, and the rows written in them
mod sets; // sets.rt: the calls on a row set or on two rows, and their answers written
mod text; // text.rt: numbers read and written

ghost use Rattle.std.specs.Prelude.{◌≤◌, length, IfOk};

use majorana::RowSet;
use rows::Size;
use std::io;
use std::io::Read;
use text::Numbers;

// The most cases that are read.
const MOST: u64 = 65536;

// The row set of a case, and the call on it.
fn on_rows(rt: &impl Print, call: u64, size: Size, numbers: &mut Numbers) -> io::Result<()> {
    let mut x = [0; 512];
    let mut z = [0; 512];
    let mut phases = [0; 256];
    numbers.fill(&mut x[..size.words()], |k| k);
    numbers.fill(&mut z[..size.words()], |k| k);
    numbers.fill(&mut phases[..size.rows()], text::low_byte);
    let set = RowSet {
        modes: size.modes,
        qubits: size.qubits,
        x: &x,
        z: &z,
        phases: &phases,
    };
    match call {
        0 => sets::solve(rt, set),
        1 => sets::new(rt, set),
        6 => sets::product(rt, set, numbers),
        _ => on_vacuum(rt, call, set, numbers),
    }
}

// The vacuum of a case, and the call on the set and it.
fn on_vacuum(rt: &impl Print, call: u64, set: RowSet, numbers: &mut Numbers) -> io::Result<()> {
    let vacuum = numbers.two();
    match call {
        2 => sets::check(rt, set, &vacuum),
        3 => sets::encode(rt, set, &vacuum, &numbers.two()),
        5 => sets::enumerate(rt, set, &vacuum, numbers),
        _ => sets::decode(rt, set, &vacuum, &numbers.two()),
    }
}

// One case, whose call is read. It is not inlined, so that its buffers are on the stack for a case alone.
#[inline(never)]
fn one(rt: &impl Print, call: u64, numbers: &mut Numbers) -> io::Result<()> {
    let size = Size {
        modes: numbers.number() as usize,
        qubits: numbers.number() as usize,
    };
    match call {
        0..=6 => on_rows(rt, call, size, numbers),
        7 => built::maxnto(rt, size.modes),
        8 => built::named(rt, numbers.number(), size),
        11 => sets::multiply(rt, size.qubits, numbers),
        _ => built::flatpack(rt, call == 9, size, numbers),
    }
}

// Every case of a text; how many there are.
fn replay(rt: &impl Print, text: &[u8]) -> io::Result<u64> {
    let mut numbers = Numbers::of(text);
    for cases in 0..MOST {
        let Some(call) = numbers.next() else {
            return Ok(cases);
        };
        one(rt, call, &mut numbers)?;
        println!(rt)?;
    }
    Ok(MOST)
}

// Reads until s is full or the input ends; how many bytes there are. std's read_exact refuses an input that is shorter.
fn read_full(input: &mut impl Read, s: &mut [u8]) -> io::Result<usize>
    ensures { IfOk result (λ n. n ≤ length s.new) }
{
    let mut done = 0;
    while done < s.len() {
        let n = input.read(&mut s[done..])?;
        if n == 0 {
            break;
        }
        done += n;
    }
    Ok(done)
}

fn main(rt: HostRuntime) -> io::Result<()> {
    let mut s = [0u8; 65536];
    let mut input = rt.stdin();
    let n = read_full(&mut input, &mut s)?;
    let cases = replay(&rt, &s[..n])?;
    println!(rt; "{cases} cases")
}
