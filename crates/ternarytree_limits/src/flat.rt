// The flatpacks.

use crate::Lengths;
use crate::tell::{self, Slices};
use std::io;
use trees::Flatpack;

// A call.
#[derive(Clone, Copy)]
struct Case {
    name: &'static str,
    flat: Flatpack<'static>,
    qubits: usize,
    written: Lengths,
}

// One longer than two entries need.
const LONGER: Lengths = Lengths {
    x: 5,
    z: 5,
    phases: 5,
    vacuum: 2,
    room: 9,
};

// One entry, whose Z slot is empty.
const ENTRY: Flatpack<'static> = Flatpack {
    modes: 1,
    entries: &[0, 1, 2, 0],
    filled: &[true, true, false],
};

const ONE: Case = Case {
    name: "one entry",
    flat: ENTRY,
    qubits: 1,
    written: LONGER,
};

// Two entries, with all slots filled but the last.
const ENTRIES: Flatpack<'static> = Flatpack {
    modes: 2,
    entries: &[0, 2, 3, 1, 1, 4, 5, 0],
    filled: &[true, true, true, true, true, false],
};

const TWO: Case = Case {
    name: "two entries",
    flat: ENTRIES,
    qubits: 64,
    written: LONGER,
};

#[rattlefmt::skip]
static VALUES: [Case; 22] = [
    ONE,
    Case { name: "0 modes", flat: Flatpack { modes: 0, ..ENTRY }, ..ONE },
    Case { name: "257 modes", flat: Flatpack { modes: 257, ..ENTRY }, qubits: 257, ..ONE },
    Case { name: "0 qubits", qubits: 0, ..ONE },
    Case { name: "257 qubits", qubits: 257, ..ONE },
    Case { name: "qubit 63 of 64", flat: Flatpack { entries: &[63, 64, 65, 0], ..ENTRY }, qubits: 64, ..ONE },
    Case { name: "qubit 64 of 64", flat: Flatpack { entries: &[64, 65, 66, 0], ..ENTRY }, qubits: 64, ..ONE },
    Case { name: "qubit 255", flat: Flatpack { entries: &[255, 256, 257, 0], ..ENTRY }, qubits: 64, ..ONE },
    Case { name: "qubit 256", flat: Flatpack { entries: &[256, 257, 258, 0], ..ENTRY }, qubits: 64, ..ONE },
    Case { name: "X slot 513", flat: Flatpack { entries: &[0, 513, 2, 0], ..ENTRY }, ..ONE },
    Case { name: "X slot the largest number", flat: Flatpack { entries: &[0, usize::MAX, 2, 0], ..ENTRY }, ..ONE },
    Case { name: "a self child", flat: Flatpack { entries: &[0, 0, 2, 0], ..ENTRY }, ..ONE },
    Case { name: "leaves exchanged", flat: Flatpack { entries: &[0, 2, 1, 0], ..ENTRY }, ..ONE },
    TWO,
    Case { name: "a qubit with two entries", flat: Flatpack { entries: &[0, 1, 2, 3, 0, 4, 5, 0], ..ENTRIES }, ..TWO },
    Case { name: "a second parent", flat: Flatpack { entries: &[0, 1, 3, 1, 1, 4, 5, 0], ..ENTRIES }, ..TWO },
    Case {
        name: "a number below the largest qubit",
        flat: Flatpack { entries: &[0, 8, 10, 9, 9, 11, 12, 0], ..ENTRIES },
        ..TWO
    },
    Case {
        name: "a cycle with leaves below it",
        flat: Flatpack { entries: &[0, 2, 3, 1, 1, 0, 5, 0], ..ENTRIES },
        ..TWO
    },
    Case { name: "a leaf used twice", flat: Flatpack { entries: &[0, 2, 2, 1, 1, 4, 5, 0], ..ENTRIES }, ..TWO },
    Case {
        name: "a cycle",
        flat: Flatpack {
            entries: &[0, 0, 0, 1, 1, 0, 0, 0],
            filled: &[false, false, true, false, false, true],
            ..ENTRIES
        },
        ..TWO
    },
    Case {
        name: "two roots",
        flat: Flatpack {
            entries: &[0, 2, 3, 0, 1, 4, 5, 0],
            filled: &[true, true, false, true, true, false],
            ..ENTRIES
        },
        ..TWO
    },
    Case {
        name: "a missing leaf",
        flat: Flatpack {
            entries: &[0, 2, 3, 1, 1, 4, 0, 0],
            filled: &[true, true, true, true, false, false],
            ..ENTRIES
        },
        ..TWO
    },
];

// What one entry needs.
const NEEDED: Lengths = Lengths {
    x: 2,
    z: 2,
    phases: 2,
    vacuum: 1,
    room: 4,
};

const CUT: Case = Case {
    name: "nothing short",
    written: NEEDED,
    ..ONE
};

#[rattlefmt::skip]
static ONE_SHORT: [Case; 8] = [
    CUT,
    Case { name: "entries one short", flat: Flatpack { entries: &[0, 1, 2], ..ENTRY }, ..CUT },
    Case { name: "filled one short", flat: Flatpack { filled: &[true, true], ..ENTRY }, ..CUT },
    Case { name: "x one short", written: Lengths { x: 1, ..NEEDED }, ..CUT },
    Case { name: "z one short", written: Lengths { z: 1, ..NEEDED }, ..CUT },
    Case { name: "phases one short", written: Lengths { phases: 1, ..NEEDED }, ..CUT },
    Case { name: "vacuum one short", written: Lengths { vacuum: 0, ..NEEDED }, ..CUT },
    Case { name: "room one short", written: Lengths { room: 3, ..NEEDED }, ..CUT },
];

// One call, with leaves or naive. A case lends no more of a slice than there is.
fn run(rt: &impl Print, leaves: bool, case: &Case) -> io::Result<()> {
    let mut xs = [7; 5];
    let mut zs = [7; 5];
    let mut ps = [7; 5];
    let mut vs = [7; 2];
    let mut rs = [7; 9];
    let x = &mut xs[..case.written.x.min(5)];
    let z = &mut zs[..case.written.z.min(5)];
    let phases = &mut ps[..case.written.phases.min(5)];
    let vacuum = &mut vs[..case.written.vacuum.min(2)];
    let room = &mut rs[..case.written.room.min(9)];
    let (call, answer) = if leaves {
        (
            "leaves",
            ternarytree::from_flatpack(case.flat, case.qubits, x, z, phases, vacuum, room),
        )
    } else {
        (
            "naive",
            ternarytree::from_flatpack_naive(case.flat, case.qubits, x, z, phases, vacuum, room),
        )
    };
    tell::head(rt, call, case.name, answer)?;
    tell::left(
        rt,
        Slices {
            x,
            z,
            phases,
            vacuum,
            room,
        },
    )
}

pub fn values(rt: &impl Print) -> io::Result<()> {
    for case in &VALUES {
        run(rt, true, case)?;
        run(rt, false, case)?;
    }
    Ok(())
}

pub fn one_short(rt: &impl Print) -> io::Result<()> {
    for case in &ONE_SHORT {
        run(rt, true, case)?;
    }
    Ok(())
}
