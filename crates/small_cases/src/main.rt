// Runs the small cases worked by hand through the calls, and writes a line for each: the number handed back and then
// what was written. proofs/Cases.antt proves those of them that are proved, at the contracts of the calls. Bits are
// written as numbers, column 0 lowest.

#![tactic(auto)]

mod pairs; // pairs.rt: the product of two rows, and whether they commute

use majorana::RowSet;
use pauli::Marked;
use refusal::Refusal;
use std::io;
use trees::{Flatpack, Named};

// Jordan-Wigner and parity on two modes, and one mode on two qubits, its rows XI and YI.
const JORDAN_WIGNER: RowSet = RowSet {
    modes: 2,
    qubits: 2,
    x: &[1, 1, 2, 2],
    z: &[0, 1, 1, 3],
    phases: &[0, 1, 0, 1],
};

const PARITY: RowSet = RowSet {
    modes: 2,
    qubits: 2,
    x: &[1, 1, 3, 3],
    z: &[2, 1, 0, 2],
    phases: &[0, 1, 0, 1],
};

const WIDE: RowSet = RowSet {
    modes: 1,
    qubits: 2,
    x: &[1, 1],
    z: &[0, 1],
    phases: &[0, 1],
};

// The rows that a builder wrote, of one word each.
#[derive(Drop)]
struct Rows {
    x: [u64; 2048],
    z: [u64; 2048],
    phases: [u8; 512],
}

impl Rows {
    fn none() -> Rows {
        Rows {
            x: [0; 2048],
            z: [0; 2048],
            phases: [0; 512],
        }
    }

    // The first four.
    fn print(&self, rt: &impl Print) -> io::Result<()> {
        let mut before = ", p x z";
        for k in 0..4 {
            print!(rt; "{before} {} {} {}", self.phases[k], self.x[k], self.z[k])?;
            before = ",";
        }
        Ok(())
    }
}

// A named tree of n modes; its rows where there are two.
fn tree(rt: &impl Print, case: &str, named: Named, n: usize) -> io::Result<()> {
    let mut rows = Rows::none();
    let answer = ternarytree::from_name(
        named,
        n,
        n,
        &mut rows.x,
        &mut rows.z,
        &mut rows.phases,
        &mut [0; 4],
        &mut [0; 4096],
    );
    print!(rt; "{case} {n}: {}", refusal::number(&answer))?;
    if n == 2 {
        rows.print(rt)?;
    }
    println!(rt)
}

// The four named trees of n modes.
fn trees(rt: &impl Print, n: usize) -> io::Result<()> {
    for (case, named) in [
        ("Jordan-Wigner", Named::JordanWigner),
        ("parity", Named::Parity),
        ("Bravyi-Kitaev", Named::BravyiKitaev),
        ("JKMN", Named::Jkmn),
    ] {
        tree(rt, case, named, n)?;
    }
    Ok(())
}

// One entry, qubit 0, with this X slot and no other.
fn leaf(rt: &impl Print, slot: usize) -> io::Result<()> {
    let flat = Flatpack {
        modes: 1,
        entries: &[0, slot, 0, 0],
        filled: &[true, false, false],
    };
    let answer = ternarytree::from_flatpack(
        flat,
        1,
        &mut [0; 2],
        &mut [0; 2],
        &mut [0; 2],
        &mut [0; 1],
        &mut [0; 4],
    );
    println!(rt; "one entry, X slot {slot}: {}", refusal::number(&answer))
}

// MaxNTO of n modes; its rows where there are two.
fn maxnto(rt: &impl Print, n: usize) -> io::Result<()> {
    let mut rows = Rows::none();
    let answer = maxnto::maxnto(n, &mut rows.x, &mut rows.z, &mut rows.phases);
    print!(rt; "MaxNTO {n}: {}", refusal::number(&answer))?;
    if n == 2 {
        rows.print(rt)?;
    }
    println!(rt)
}

// Encodes a list at vacuum 0.
fn encode(rt: &impl Print, case: &str, set: RowSet, list: u64) -> io::Result<()> {
    let mut out = [9];
    let answer = majorana::try_encode(set, &[0], &[list], &mut out);
    print!(rt; "{case}, list {list}: {}", refusal::number(&answer))?;
    if let Ok(phase) = answer {
        print!(rt; ", phase {}", phase.power)?;
    }
    println!(rt; ", string {}", out[0])
}

// Decodes a string at vacuum 0.
fn decode(rt: &impl Print, case: &str, set: RowSet, string: u64) -> io::Result<()> {
    let mut out = [9];
    let answer = majorana::decode_zbasis_state(set, &[0], &[string], &mut out);
    println!(rt;
        "{case}, string {string}: {}, list {}",
        refusal::number(&answer),
        out[0]
    )
}

// One mode on one qubit: its rows are X and then X, or Y where the second has a Z part.
#[derive(Clone, Copy)]
struct Mode {
    z: [u64; 2],
    phases: [u8; 2],
}

impl Mode {
    fn set(&self) -> RowSet<'_> {
        RowSet {
            modes: 1,
            qubits: 1,
            x: &[1, 1],
            z: &self.z,
            phases: &self.phases,
        }
    }

    fn print(&self, rt: &impl Print) -> io::Result<()> {
        let second = if self.z[1] == 0 { "X" } else { "Y" };
        print!(rt;
            "rows X and {second}, phases {} and {}",
            self.phases[0], self.phases[1]
        )
    }
}

fn solve(rt: &impl Print, mode: Mode) -> io::Result<()> {
    let mut v = [9];
    let answer = majorana::determine_vacuum_state(mode.set(), &mut v, &mut [9; 2]);
    mode.print(rt)?;
    println!(rt; ": {}, vacuum {}", refusal::number(&answer), v[0])
}

// The row check at vacuum 0.
fn check(rt: &impl Print, mode: Mode) -> io::Result<()> {
    let answer = majorana::check_rows(mode.set(), &[0], &mut [9; 4]);
    mode.print(rt)?;
    print!(rt; ", checked: {}", refusal::number(&answer))?;
    if let Err(Refusal::Commuting(j, k)) = answer {
        print!(rt; ", rows {j} {k}")?;
    }
    println!(rt)
}

// Rows a and then b of Jordan-Wigner on two modes, with coefficient 2; what comes back is 2 or -2 times 1 or i.
fn product(rt: &impl Print, a: usize, b: usize) -> io::Result<()> {
    let mut ox = [9];
    let mut oz = [9];
    let answer = products::product_real(JORDAN_WIGNER, &[a, b], 2.0, &mut ox, &mut oz);
    print!(rt; "product from row {a}: {}", refusal::number(&answer))?;
    if let Ok((phase, c)) = answer {
        print!(rt; ", p x z {} {} {}", phase.power, ox[0], oz[0])?;
        match c {
            Marked::Real(c) => print!(rt; ", real {c}")?,
            Marked::Imag(c) => print!(rt; ", imaginary {c}")?,
        }
    }
    println!(rt)
}

// Whether the number of common ones is odd, of two rows and of two pairs together.
fn parities(rt: &impl Print) -> io::Result<()> {
    let all = [u64::MAX; 4];
    let but_last = [u64::MAX, u64::MAX, u64::MAX, u64::MAX >> 1];
    let a = [1, 1];
    let b = [1, 0];
    let c = [1, 1, 1];
    let d = [1];
    let alike = dense_block::fold_both(&a, &a, &a, &b);
    let unlike = dense_block::fold_both(&a, &b, &d, &c);
    for (case, odd) in [
        ("words 1 1 and 1 1", dense_block::parity_and(&a, &a)),
        ("words 1 1 and 1 0", dense_block::parity_and(&a, &b)),
        ("256 columns", dense_block::parity_and(&all, &all)),
        ("255 columns", dense_block::parity_and(&all, &but_last)),
        ("words 1 1 1 and 1", dense_block::parity_and(&c, &d)),
        ("words 1 1 and 1 1 1", dense_block::parity_and(&a, &c)),
        ("words 1 1 and 1 1, 1 1 and 1 0", dense_block::parity(alike)),
        (
            "words 1 1 and 1 0, 1 and 1 1 1",
            dense_block::parity(unlike),
        ),
    ] {
        let parity = if odd { "odd" } else { "even" };
        println!(rt; "common ones of {case}: {parity}")?;
    }
    Ok(())
}

fn codes(rt: &impl Print) -> io::Result<()> {
    encode(rt, "Jordan-Wigner", JORDAN_WIGNER, 3)?;
    encode(rt, "parity", PARITY, 3)?;
    decode(rt, "parity", PARITY, 2)?;
    decode(rt, "rows XI and YI", WIDE, 2)?;
    decode(rt, "rows XI and YI", WIDE, 1)
}

fn vacuums(rt: &impl Print) -> io::Result<()> {
    for phases in [[0, 1], [0, 3], [0, 2], [3, 0]] {
        solve(rt, Mode { z: [0, 1], phases })?;
    }
    let twins = Mode {
        z: [0, 0],
        phases: [0, 1],
    };
    solve(rt, twins)?;
    check(rt, twins)?;
    solve(
        rt,
        Mode {
            z: [0, 0],
            phases: [0, 3],
        },
    )
}

fn main(rt: HostRuntime) -> io::Result<()> {
    trees(&rt, 2)?;
    codes(&rt)?;
    vacuums(&rt)?;
    product(&rt, 0, 1)?;
    product(&rt, 1, 0)?;
    maxnto(&rt, 2)?;
    for n in [0, 257, 1, 128, 129, 256] {
        trees(&rt, n)?;
    }
    maxnto(&rt, 255)?;
    maxnto(&rt, 256)?;
    leaf(&rt, 513)?;
    parities(&rt)?;
    pairs::pairs(&rt)
}
