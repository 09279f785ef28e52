// The calls on a row set or on two rows, and their answers written: the number, and if it is done the values. A string
// or a list comes in two words, of which the second is 0 where one would do.

use crate::rows::{Rows, Size, trimmed};
use crate::text;
use crate::text::Numbers;
use majorana::RowSet;
use pauli::{Marked, Phase, Row};
use refusal::Refusal;
use std::io;

// An answer that comes with a string of so many bits.
fn string(
    rt: &impl Print,
    answer: Result<(), Refusal>,
    words: &[u64; 2],
    bits: usize,
) -> io::Result<()> {
    text::answer(rt, &answer)?;
    if answer.is_ok() {
        text::out(rt, trimmed(words, bits))?;
    }
    Ok(())
}

pub fn solve(rt: &impl Print, set: RowSet) -> io::Result<()> {
    let mut vacuum = [7; 2];
    let answer = majorana::determine_vacuum_state(set, &mut vacuum, &mut [7; 384]);
    string(rt, answer, &vacuum, set.qubits)
}

pub fn new(rt: &impl Print, set: RowSet) -> io::Result<()> {
    let mut vacuum = [7; 2];
    let answer = majorana::new(set, &mut vacuum, &mut [7; 1024]);
    string(rt, answer, &vacuum, set.qubits)
}

pub fn check(rt: &impl Print, set: RowSet, vacuum: &[u64]) -> io::Result<()> {
    text::answer(rt, &majorana::check_rows(set, vacuum, &mut [7; 1024]))
}

pub fn encode(rt: &impl Print, set: RowSet, vacuum: &[u64], list: &[u64]) -> io::Result<()> {
    let mut out = [7; 2];
    let answer = majorana::try_encode(set, vacuum, list, &mut out);
    text::answer(rt, &answer)?;
    if let Ok(phase) = answer {
        print!(rt; " {:x}", phase.power)?;
        text::out(rt, trimmed(&out, set.qubits))?;
    }
    Ok(())
}

pub fn decode(rt: &impl Print, set: RowSet, vacuum: &[u64], string: &[u64]) -> io::Result<()> {
    let mut out = [7; 2];
    let answer = majorana::decode_zbasis_state(set, vacuum, string, &mut out);
    self::string(rt, answer, &out, set.modes)
}

// The map stands in the text.
pub fn enumerate(
    rt: &impl Print,
    set: RowSet,
    vacuum: &[u64],
    numbers: &mut Numbers,
) -> io::Result<()> {
    let mut map = [0; 128];
    numbers.fill(&mut map[..set.modes.min(128)], |k| k as usize);
    let mut x = [7; 512];
    let mut z = [7; 512];
    let mut phases = [7; 256];
    let mut new_vacuum = [7; 2];
    let answer = enumeration::apply_mode_enumeration(
        set,
        vacuum,
        &map,
        &mut x,
        &mut z,
        &mut phases,
        &mut new_vacuum,
        &mut [7; 1024],
    );
    text::answer(rt, &answer)?;
    if answer.is_ok() {
        let size = Size {
            modes: set.modes,
            qubits: set.qubits,
        };
        let rows = Rows {
            x: &x,
            z: &z,
            phases: &phases,
            vacuum: &new_vacuum,
        };
        rows.out_with_vacuum(rt, size)?;
    }
    Ok(())
}

// The power of i that took 1 to a marked number.
fn power(c: Marked) -> u8 {
    match c {
        Marked::Real(r) if r < 0.0 => 2,
        Marked::Real(_) => 0,
        Marked::Imag(r) if r < 0.0 => 3,
        Marked::Imag(_) => 1,
    }
}

// The row numbers stand in the text, after how many there are, at most 16. The coefficient is 1.
pub fn product(rt: &impl Print, set: RowSet, numbers: &mut Numbers) -> io::Result<()> {
    let mut list = [0; 16];
    let list = &mut list[..(numbers.number() % 17) as usize];
    numbers.fill(list, |k| k as usize);
    let mut ox = [7; 2];
    let mut oz = [7; 2];
    let answer = products::product_real(set, list, 1.0, &mut ox, &mut oz);
    text::answer(rt, &answer)?;
    if let Ok((_, c)) = answer {
        print!(rt; " {:x}", power(c))?;
        text::out(rt, trimmed(&ox, set.qubits))?;
        text::out(rt, trimmed(&oz, set.qubits))?;
    }
    Ok(())
}

// A row as it stands in the text: its phase, and two words of either part.
fn row(numbers: &mut Numbers) -> (Phase, [u64; 2], [u64; 2]) {
    let phase = Phase {
        power: text::low_byte(numbers.number()),
    };
    (phase, numbers.two(), numbers.two())
}

// Two rows stand in the text. The answer has the phase, whether the rows commute, and the parts.
pub fn multiply(rt: &impl Print, qubits: usize, numbers: &mut Numbers) -> io::Result<()> {
    let (left, lx, lz) = row(numbers);
    let (right, rx, rz) = row(numbers);
    let mut ox = [7; 2];
    let mut oz = [7; 2];
    let left = Row {
        phase: left,
        x: &lx,
        z: &lz,
    };
    let right = Row {
        phase: right,
        x: &rx,
        z: &rz,
    };
    let answer = pauli::multiply(qubits, left, right, &mut ox, &mut oz);
    text::answer(rt, &answer)?;
    if let Ok(met) = answer {
        print!(rt; " {:x} {:x}", met.phase.power, u8::from(met.commute))?;
        text::out(rt, trimmed(&ox, qubits))?;
        text::out(rt, trimmed(&oz, qubits))?;
    }
    Ok(())
}
