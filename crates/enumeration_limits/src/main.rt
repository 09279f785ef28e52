// Runs mode enumeration at the limits of what it takes, and writes a line for each call: the number handed back and
// then every word of the outputs and of the room. Each held 7 before, and is one longer than needed, or as its case
// says one too short.

#![tactic(auto)]

mod largest;

use enumeration::RowSet;
use std::fmt::Display;
use std::io;

// How long each slice is that is written.
#[derive(Clone, Copy)]
struct Lengths {
    x: usize,
    z: usize,
    phases: usize,
    vacuum: usize,
    room: usize,
}

// A call.
#[derive(Clone, Copy)]
struct Case {
    name: &'static str,
    set: RowSet<'static>,
    vacuum: &'static [u64],
    map: &'static [usize],
    written: Lengths,
}

// One longer than needed.
const LONGER: Lengths = Lengths {
    x: 5,
    z: 5,
    phases: 5,
    vacuum: 2,
    room: 9,
};

// Jordan-Wigner on two modes.
const ROWS: RowSet<'static> = RowSet {
    modes: 2,
    qubits: 2,
    x: &[1, 1, 2, 2],
    z: &[0, 1, 1, 3],
    phases: &[0, 1, 0, 1],
};

// The modes exchanged.
const CALL: Case = Case {
    name: "2 modes",
    set: ROWS,
    vacuum: &[0],
    map: &[1, 0],
    written: LONGER,
};

#[rattlefmt::skip]
static CASES: [Case; 33] = [
    CALL,
    Case { name: "0 modes", set: RowSet { modes: 0, ..ROWS }, ..CALL },
    Case { name: "257 modes", set: RowSet { modes: 257, ..ROWS }, ..CALL },
    Case { name: "the largest number of modes", set: RowSet { modes: usize::MAX, ..ROWS }, ..CALL },
    Case { name: "0 qubits", set: RowSet { qubits: 0, ..ROWS }, ..CALL },
    Case { name: "257 qubits", set: RowSet { qubits: 257, ..ROWS }, ..CALL },
    Case { name: "the largest number of qubits", set: RowSet { qubits: usize::MAX, ..ROWS }, ..CALL },
    // one short
    Case { name: "x one short", set: RowSet { x: &[1, 1, 2], ..ROWS }, ..CALL },
    Case { name: "z one short", set: RowSet { z: &[0, 1, 1], ..ROWS }, ..CALL },
    Case { name: "phases one short", set: RowSet { phases: &[0, 1, 0], ..ROWS }, ..CALL },
    Case { name: "vacuum one short", vacuum: &[], ..CALL },
    Case { name: "map one short", map: &[1], ..CALL },
    Case { name: "new x one short", written: Lengths { x: 3, ..LONGER }, ..CALL },
    Case { name: "new z one short", written: Lengths { z: 3, ..LONGER }, ..CALL },
    Case { name: "new phases one short", written: Lengths { phases: 3, ..LONGER }, ..CALL },
    Case { name: "new vacuum one short", written: Lengths { vacuum: 0, ..LONGER }, ..CALL },
    Case { name: "room one short", written: Lengths { room: 7, ..LONGER }, ..CALL },
    Case { name: "none longer than needed", written: Lengths { x: 4, z: 4, phases: 4, vacuum: 1, room: 8 }, ..CALL },
    // bad values
    Case { name: "stray bit in x", set: RowSet { x: &[1, 1, 2, 6], ..ROWS }, ..CALL },
    Case { name: "stray bit in z", set: RowSet { z: &[4, 1, 1, 3], ..ROWS }, ..CALL },
    Case { name: "stray bit in the vacuum", vacuum: &[4], ..CALL },
    Case { name: "phase 4", set: RowSet { phases: &[0, 1, 0, 4], ..ROWS }, ..CALL },
    Case { name: "phase 255", set: RowSet { phases: &[0, 1, 0, 255], ..ROWS }, ..CALL },
    Case { name: "a number repeated", map: &[0, 0], ..CALL },
    Case { name: "a number repeated, 0 left out", map: &[1, 1], ..CALL },
    Case { name: "the number 2, 0 left out", map: &[1, 2], ..CALL },
    Case { name: "the number 2 first", map: &[2, 0], ..CALL },
    Case { name: "the largest number", map: &[0, usize::MAX], ..CALL },
    Case { name: "a bad map and a phase 4", set: RowSet { phases: &[0, 1, 0, 4], ..ROWS }, map: &[1, 1], ..CALL },
    Case { name: "the identity", map: &[0, 1], ..CALL },
    // the row check
    Case { name: "rows 1 and 3 commute", set: RowSet { x: &[1, 1, 2, 3], ..ROWS }, ..CALL },
    Case { name: "a bad map, and rows commute", set: RowSet { x: &[1, 1, 2, 3], ..ROWS }, map: &[1, 1], ..CALL },
    Case { name: "the vacuum breaks the rule", vacuum: &[1], ..CALL },
];

// Writes a name and the elements of s, a blank before each.
fn write<T: Display>(rt: &impl Print, name: &str, s: &[T]) -> io::Result<()> {
    print!(rt; ", {name}")?;
    for k in s {
        print!(rt; " {k}")?;
    }
    Ok(())
}

// One call. A case lends no more of a slice than there is.
fn run(rt: &impl Print, case: &Case) -> io::Result<()> {
    let mut ox = [7; 5];
    let mut oz = [7; 5];
    let mut ophases = [7; 5];
    let mut ovacuum = [7; 2];
    let mut room = [7; 9];
    let answer = enumeration::apply_mode_enumeration(
        case.set,
        case.vacuum,
        case.map,
        &mut ox[..case.written.x.min(5)],
        &mut oz[..case.written.z.min(5)],
        &mut ophases[..case.written.phases.min(5)],
        &mut ovacuum[..case.written.vacuum.min(2)],
        &mut room[..case.written.room.min(9)],
    );
    print!(rt; "{}: {}", case.name, refusal::number(&answer))?;
    write(rt, "x", &ox)?;
    write(rt, "z", &oz)?;
    write(rt, "phases", &ophases)?;
    write(rt, "vacuum", &ovacuum)?;
    write(rt, "room", &room)?;
    println!(rt;)
}

fn main(rt: HostRuntime) -> io::Result<()> {
    for case in &CASES {
        run(&rt, case)?;
    }
    largest::run(&rt, "256 modes reversed", 0)?;
    largest::run(&rt, "256 modes, a number repeated", 1)?;
    largest::run(&rt, "256 modes, the number 256", 256)
}
