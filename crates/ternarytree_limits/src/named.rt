// The named trees.

use crate::Lengths;
use crate::tell::{self, Slices};
use std::io;
use trees::Named;

// A call.
#[derive(Clone, Copy)]
struct Case {
    name: &'static str,
    tree: Named,
    modes: usize,
    qubits: usize,
    written: Lengths,
}

// One mode, with slices that are one longer than 256 modes need.
const GROWN: Case = Case {
    name: "1 mode",
    tree: Named::JordanWigner,
    modes: 1,
    qubits: 1,
    written: Lengths {
        x: 2049,
        z: 2049,
        phases: 513,
        vacuum: 5,
        room: 4097,
    },
};

#[rattlefmt::skip]
static SIZES: [Case; 12] = [
    Case { name: "0 modes", modes: 0, ..GROWN },
    GROWN,
    Case { name: "128 modes", modes: 128, qubits: 128, ..GROWN },
    Case { name: "129 modes", modes: 129, qubits: 129, ..GROWN },
    Case { name: "255 modes", modes: 255, qubits: 256, ..GROWN },
    Case { name: "256 modes", modes: 256, qubits: 256, ..GROWN },
    Case { name: "257 modes", modes: 257, qubits: 257, ..GROWN },
    Case { name: "the largest number of modes", modes: usize::MAX, qubits: 256, ..GROWN },
    Case { name: "0 qubits", qubits: 0, ..GROWN },
    Case { name: "257 qubits", qubits: 257, ..GROWN },
    Case { name: "one qubit fewer than modes", modes: 256, qubits: 255, ..GROWN },
    Case { name: "more qubits than modes", modes: 2, qubits: 256, ..GROWN },
];

// What 65 modes need, whose rows take two words.
const NEEDED: Lengths = Lengths {
    x: 260,
    z: 260,
    phases: 130,
    vacuum: 2,
    room: 520,
};

const CUT: Case = Case {
    name: "nothing short",
    tree: Named::BravyiKitaev,
    modes: 65,
    qubits: 256,
    written: NEEDED,
};

#[rattlefmt::skip]
static ONE_SHORT: [Case; 6] = [
    CUT,
    Case { name: "x one short", written: Lengths { x: 259, ..NEEDED }, ..CUT },
    Case { name: "z one short", written: Lengths { z: 259, ..NEEDED }, ..CUT },
    Case { name: "phases one short", written: Lengths { phases: 129, ..NEEDED }, ..CUT },
    Case { name: "vacuum one short", written: Lengths { vacuum: 1, ..NEEDED }, ..CUT },
    Case { name: "room one short", written: Lengths { room: 519, ..NEEDED }, ..CUT },
];

// One call. A case lends no more of a slice than there is.
fn run(rt: &impl Print, case: &Case) -> io::Result<()> {
    let mut xs = [7; 2049];
    let mut zs = [7; 2049];
    let mut ps = [7; 513];
    let mut vs = [7; 5];
    let mut rs = [7; 4097];
    let x = &mut xs[..case.written.x.min(2049)];
    let z = &mut zs[..case.written.z.min(2049)];
    let phases = &mut ps[..case.written.phases.min(513)];
    let vacuum = &mut vs[..case.written.vacuum.min(5)];
    let room = &mut rs[..case.written.room.min(4097)];
    let answer = ternarytree::from_name(
        case.tree,
        case.modes,
        case.qubits,
        x,
        z,
        phases,
        vacuum,
        room,
    );
    tell::head(rt, tell::name(case.tree), case.name, answer)?;
    tell::tally(
        rt,
        Slices {
            x,
            z,
            phases,
            vacuum,
            room,
        },
    )
}

// The four named trees at each size.
pub fn sizes(rt: &impl Print) -> io::Result<()> {
    for case in &SIZES {
        for tree in [
            Named::JordanWigner,
            Named::Parity,
            Named::BravyiKitaev,
            Named::Jkmn,
        ] {
            run(rt, &Case { tree, ..*case })?;
        }
    }
    Ok(())
}

pub fn one_short(rt: &impl Print) -> io::Result<()> {
    for case in &ONE_SHORT {
        run(rt, case)?;
    }
    Ok(())
}
