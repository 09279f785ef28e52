// Runs the row check, vacuum solving, `new` and the products at the limits of what they take, and writes a line for
// each call: the number handed back, the pair that 10 carries, a product's phase, and every word of the buffers, which
// held 7 before. Jordan-Wigner on two modes needs one word of a vacuum, 8 of room, and 4 to solve in.

#![tactic(auto)]

use majorana::RowSet;
use pauli::{Coefficient, Phase};
use refusal::Refusal;
use std::io;

const JORDAN_WIGNER: RowSet = RowSet {
    modes: 2,
    qubits: 2,
    x: &[1, 1, 2, 2],
    z: &[0, 1, 1, 3],
    phases: &[0, 1, 0, 1],
};

// Jordan-Wigner with these sizes, X parts, Z parts or phases.
fn sized(modes: usize, qubits: usize) -> RowSet<'static> {
    RowSet {
        modes,
        qubits,
        ..JORDAN_WIGNER
    }
}

fn with_x(x: &[u64]) -> RowSet<'_> {
    RowSet { x, ..JORDAN_WIGNER }
}

fn with_z(z: &[u64]) -> RowSet<'_> {
    RowSet { z, ..JORDAN_WIGNER }
}

fn with_phases(phases: &[u8]) -> RowSet<'_> {
    RowSet {
        phases,
        ..JORDAN_WIGNER
    }
}

// Writes a name and the words of s, a blank before each.
fn words(rt: &impl Print, name: &str, s: &[u64]) -> io::Result<()> {
    print!(rt; ", {name}")?;
    for word in s {
        print!(rt; " {word}")?;
    }
    Ok(())
}

// A line: the answer and what was left.
fn line(
    rt: &impl Print,
    call: &str,
    case: &str,
    answer: Result<(), Refusal>,
    v: &[u64],
    room: &[u64],
) -> io::Result<()> {
    print!(rt; "{call}, {case}: {}", refusal::number(&answer))?;
    if let Err(Refusal::Commuting(j, k)) = answer {
        print!(rt; ", rows {j} {k}")?;
    }
    words(rt, "vacuum", v)?;
    words(rt, "room", room)?;
    println!(rt)
}

// The row check with `vacuum`, then solving and `new` into v, each with the buffers at 7.
fn three(
    rt: &impl Print,
    case: &str,
    set: RowSet,
    vacuum: &[u64],
    v: &mut [u64],
    room: &mut [u64],
) -> io::Result<()> {
    room.fill(7);
    let checked = majorana::check_rows(set, vacuum, room);
    line(rt, "check", case, checked, vacuum, room)?;
    v.fill(7);
    room.fill(7);
    let solved = majorana::determine_vacuum_state(set, v, room);
    line(rt, "solve", case, solved, v, room)?;
    v.fill(7);
    room.fill(7);
    let made = majorana::new(set, v, room);
    line(rt, "new", case, made, v, room)
}

// The same, with a word more than needed in each buffer.
fn lent(rt: &impl Print, case: &str, set: RowSet, vacuum: &[u64]) -> io::Result<()> {
    three(rt, case, set, vacuum, &mut [7; 2], &mut [7; 9])
}

fn sizes(rt: &impl Print) -> io::Result<()> {
    for (case, modes, qubits) in [
        ("2 modes", 2, 2),
        ("0 modes", 0, 2),
        ("257 modes", 257, 2),
        ("the largest number of modes", usize::MAX, 2),
        ("0 qubits", 2, 0),
        ("257 qubits", 2, 257),
        ("the largest number of qubits", 2, usize::MAX),
    ] {
        lent(rt, case, sized(modes, qubits), &[0])?;
    }
    Ok(())
}

fn one_short(rt: &impl Print) -> io::Result<()> {
    lent(rt, "x one short", with_x(&[1, 1, 2]), &[0])?;
    lent(rt, "z one short", with_z(&[0, 1, 1]), &[0])?;
    lent(rt, "phases one short", with_phases(&[0, 1, 0]), &[0])?;
    three(
        rt,
        "vacuum one short",
        JORDAN_WIGNER,
        &[],
        &mut [],
        &mut [7; 9],
    )?;
    three(
        rt,
        "room of 7 words",
        JORDAN_WIGNER,
        &[0],
        &mut [7; 2],
        &mut [7; 7],
    )?;
    three(
        rt,
        "room of 3 words",
        JORDAN_WIGNER,
        &[0],
        &mut [7; 2],
        &mut [7; 3],
    )
}

fn bad_values(rt: &impl Print) -> io::Result<()> {
    lent(rt, "stray bit in x", with_x(&[1, 1, 2, 6]), &[0])?;
    lent(rt, "stray bit in z", with_z(&[4, 1, 1, 3]), &[0])?;
    lent(rt, "stray bit in the vacuum", JORDAN_WIGNER, &[4])?;
    lent(rt, "phase 4", with_phases(&[0, 1, 0, 4]), &[0])?;
    lent(rt, "phase 255", with_phases(&[0, 1, 0, 255]), &[0])?;
    lent(rt, "another vacuum", JORDAN_WIGNER, &[1])?;
    lent(rt, "phase 3", with_phases(&[0, 1, 0, 3]), &[0])?;
    lent(rt, "odd d", with_phases(&[0, 1, 0, 2]), &[0])?;
    lent(rt, "two rows commute", with_z(&[3, 1, 1, 3]), &[0])
}

// One mode on one qubit, both rows X, with these phases.
fn twins(rt: &impl Print, case: &str, phases: &[u8]) -> io::Result<()> {
    let set = RowSet {
        modes: 1,
        qubits: 1,
        x: &[1, 1],
        z: &[0, 0],
        phases,
    };
    lent(rt, case, set, &[0])
}

// A product's line: its phase, and what was left of its buffers.
fn product_line(
    rt: &impl Print,
    call: &str,
    case: &str,
    answer: Result<Phase, Refusal>,
    ox: &[u64],
    oz: &[u64],
) -> io::Result<()> {
    print!(rt; "{call} product, {case}: {}", refusal::number(&answer))?;
    if let Ok(phase) = answer {
        print!(rt; ", phase {}", phase.power)?;
    }
    words(rt, "x", ox)?;
    words(rt, "z", oz)?;
    println!(rt)
}

// A product with the real coefficient c, and one with 1 + ci.
fn real(
    rt: &impl Print,
    case: &str,
    set: RowSet,
    numbers: &[usize],
    c: f64,
    ox: &mut [u64],
    oz: &mut [u64],
) -> io::Result<()> {
    let answer = products::product_real(set, numbers, c, ox, oz).map(|(phase, _)| phase);
    product_line(rt, "real", case, answer, ox, oz)
}

fn complex(
    rt: &impl Print,
    case: &str,
    set: RowSet,
    numbers: &[usize],
    c: f64,
    ox: &mut [u64],
    oz: &mut [u64],
) -> io::Result<()> {
    let both = Coefficient { re: 1.0, im: c };
    let answer = products::product(set, numbers, both, ox, oz).map(|(phase, _)| phase);
    product_line(rt, "complex", case, answer, ox, oz)
}

// Both, each with two words for each part.
fn product(rt: &impl Print, case: &str, set: RowSet, numbers: &[usize], c: f64) -> io::Result<()> {
    real(rt, case, set, numbers, c, &mut [7; 2], &mut [7; 2])?;
    complex(rt, case, set, numbers, c, &mut [7; 2], &mut [7; 2])
}

fn products(rt: &impl Print) -> io::Result<()> {
    let set = JORDAN_WIGNER;
    product(rt, "no rows", set, &[], 2.0)?;
    product(rt, "rows 0 and 1", set, &[0, 1], 2.0)?;
    product(rt, "512 rows", set, &[3; 512], 2.0)?;
    product(rt, "513 rows", set, &[3; 513], 2.0)?;
    product(rt, "row 4", set, &[0, 4], 2.0)?;
    product(rt, "the largest row", set, &[usize::MAX], 2.0)?;
    product(rt, "not finite", set, &[0], f64::INFINITY)?;
    product(rt, "phase 4", with_phases(&[0, 1, 0, 4]), &[0], 2.0)?;
    product(rt, "phases one short", with_phases(&[0, 1, 0]), &[0], 2.0)?;
    product(rt, "0 modes", sized(0, 2), &[0], 2.0)?;
    product(rt, "257 qubits", sized(2, 257), &[0], 2.0)?;
    real(rt, "no word for x", set, &[0], 2.0, &mut [], &mut [7; 2])?;
    complex(rt, "no word for z", set, &[0], 2.0, &mut [7; 2], &mut [])
}

fn main(rt: HostRuntime) -> io::Result<()> {
    sizes(&rt)?;
    one_short(&rt)?;
    bad_values(&rt)?;
    twins(&rt, "rows X and X, phases 0 and 1", &[0, 1])?;
    twins(&rt, "rows X and X, phases 0 and 3", &[0, 3])?;
    products(&rt)
}
