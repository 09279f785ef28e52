// Runs the vacuum check, encoding and decoding at the limits of what they take, and writes a line for each call: the
// number handed back, an encoding's phase, and all five words of the buffer, which held 7 before. The buffer is lent
// whole or, as its case says, one word short.

#![tactic(auto)]

use majorana::RowSet;
use std::io;

// What the calls are lent.
#[derive(Clone, Copy)]
struct Lent<'a> {
    // What a case's name begins with.
    size: &'a str,
    set: RowSet<'a>,
    vacuum: &'a [u64],
    // What is encoded, and what is decoded.
    list: &'a [u64],
    string: &'a [u64],
    // Words of the buffer, at most 5.
    room: usize,
}

// Jordan-Wigner on two modes, its list 11 and that list's string.
const TWO_MODES: Lent = Lent {
    size: "",
    set: RowSet {
        modes: 2,
        qubits: 2,
        x: &[1, 1, 2, 2],
        z: &[0, 1, 1, 3],
        phases: &[0, 1, 0, 1],
    },
    vacuum: &[0],
    list: &[3],
    string: &[3],
    room: 5,
};

// 256 modes on 256 qubits. All rows are the identity, so X parts agree and d is 3, odd.
const LARGEST: Lent = Lent {
    size: "256 modes, ",
    set: RowSet {
        modes: 256,
        qubits: 256,
        x: &[0; 2048],
        z: &[0; 2048],
        phases: &[0; 512],
    },
    vacuum: &[0; 4],
    list: &[0; 4],
    string: &[0; 4],
    room: 5,
};

impl<'a> Lent<'a> {
    fn sized(self, modes: usize, qubits: usize) -> Lent<'a> {
        let set = RowSet {
            modes,
            qubits,
            ..self.set
        };
        Lent { set, ..self }
    }

    fn with_x(self, x: &'a [u64]) -> Lent<'a> {
        let set = RowSet { x, ..self.set };
        Lent { set, ..self }
    }

    fn with_z(self, z: &'a [u64]) -> Lent<'a> {
        let set = RowSet { z, ..self.set };
        Lent { set, ..self }
    }

    fn with_phases(self, phases: &'a [u8]) -> Lent<'a> {
        let set = RowSet { phases, ..self.set };
        Lent { set, ..self }
    }

    fn with_vacuum(self, vacuum: &'a [u64]) -> Lent<'a> {
        Lent { vacuum, ..self }
    }

    fn with_list(self, list: &'a [u64]) -> Lent<'a> {
        Lent { list, ..self }
    }

    fn with_string(self, string: &'a [u64]) -> Lent<'a> {
        Lent { string, ..self }
    }
}

// All but the last element.
fn but_last<T>(s: &[T]) -> &[T] {
    &s[..s.len().saturating_sub(1)]
}

// Writes the words of s, a blank before each.
fn words(rt: &impl Print, s: &[u64]) -> io::Result<()> {
    for word in s {
        print!(rt; " {word}")?;
    }
    println!(rt)
}

fn check(rt: &impl Print, case: &str, lent: Lent) -> io::Result<()> {
    let answer = majorana::check_vacuum(lent.set, lent.vacuum);
    println!(rt; "check, {}{case}: {}", lent.size, refusal::number(&answer))
}

fn encode(rt: &impl Print, case: &str, lent: Lent) -> io::Result<()> {
    let mut out = [7; 5];
    let room = &mut out[..lent.room.min(5)];
    let answer = majorana::try_encode(lent.set, lent.vacuum, lent.list, room);
    let phase = answer.map_or(0, |phase| phase.power);
    print!(rt;
        "encode, {}{case}: {}, phase {phase}, string",
        lent.size,
        refusal::number(&answer)
    )?;
    words(rt, &out)
}

fn decode(rt: &impl Print, case: &str, lent: Lent) -> io::Result<()> {
    let mut out = [7; 5];
    let room = &mut out[..lent.room.min(5)];
    let answer = majorana::decode_zbasis_state(lent.set, lent.vacuum, lent.string, room);
    print!(rt;
        "decode, {}{case}: {}, list",
        lent.size,
        refusal::number(&answer)
    )?;
    words(rt, &out)
}

fn three(rt: &impl Print, case: &str, lent: Lent) -> io::Result<()> {
    check(rt, case, lent)?;
    encode(rt, case, lent)?;
    decode(rt, case, lent)
}

fn sizes(rt: &impl Print) -> io::Result<()> {
    for (case, modes, qubits) in [
        ("2 modes", 2, 2),
        ("0 modes", 0, 2),
        ("257 modes", 257, 2),
        ("the largest number of modes", usize::MAX, 2),
        ("0 qubits", 2, 0),
        ("257 qubits", 2, 257),
        ("the largest number of qubits", 2, usize::MAX),
    ] {
        three(rt, case, TWO_MODES.sized(modes, qubits))?;
    }
    Ok(())
}

// Each slice a word or a phase short, where no more is lent than needed. The buffer needs as much as a list or a string.
fn one_short(rt: &impl Print, lent: Lent) -> io::Result<()> {
    let set = lent.set;
    three(rt, "x one short", lent.with_x(but_last(set.x)))?;
    three(rt, "z one short", lent.with_z(but_last(set.z)))?;
    three(
        rt,
        "phases one short",
        lent.with_phases(but_last(set.phases)),
    )?;
    three(
        rt,
        "vacuum one short",
        lent.with_vacuum(but_last(lent.vacuum)),
    )?;
    three(rt, "list one short", lent.with_list(but_last(lent.list)))?;
    three(
        rt,
        "string one short",
        lent.with_string(but_last(lent.string)),
    )?;
    let room = but_last(lent.list).len();
    three(rt, "out one short", Lent { room, ..lent })
}

fn bad_values(rt: &impl Print) -> io::Result<()> {
    let good = TWO_MODES;
    three(rt, "stray bit in x", good.with_x(&[1, 1, 2, 6]))?;
    three(rt, "stray bit in z", good.with_z(&[4, 1, 1, 3]))?;
    three(rt, "stray bit in the vacuum", good.with_vacuum(&[4]))?;
    three(rt, "stray bit in the list", good.with_list(&[7]))?;
    three(rt, "stray bit in the string", good.with_string(&[7]))?;
    three(rt, "phase 4", good.with_phases(&[0, 1, 0, 4]))?;
    three(rt, "phase 255", good.with_phases(&[0, 1, 0, 255]))
}

fn largest_sizes(rt: &impl Print) -> io::Result<()> {
    three(
        rt,
        "256 modes",
        Lent {
            size: "",
            ..LARGEST
        },
    )?;
    three(
        rt,
        "the last occupied",
        LARGEST.with_list(&[0, 0, 0, 1 << 63]),
    )?;
    one_short(rt, LARGEST)
}

fn main(rt: HostRuntime) -> io::Result<()> {
    sizes(&rt)?;
    one_short(&rt, TWO_MODES)?;
    bad_values(&rt)?;
    largest_sizes(&rt)
}
