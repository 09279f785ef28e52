// The product of two rows, and whether they commute.

use pauli::{Phase, Row};
use std::io;

// A row of four words a part.
fn row<'a>(power: u8, x: &'a [u64; 4], z: &'a [u64; 4]) -> Row<'a> {
    Row {
        phase: Phase { power },
        x,
        z,
    }
}

// Two rows multiplied on q columns: the phase and whether the rows commute, and the first and the last word of the
// product's parts, which hold 9 before the call.
fn pair(rt: &impl Print, case: &str, q: usize, left: Row, right: Row) -> io::Result<()> {
    let mut ox = [9; 4];
    let mut oz = [9; 4];
    let answer = pauli::multiply(q, left, right, &mut ox, &mut oz);
    print!(rt; "{case}: {}", refusal::number(&answer))?;
    if let Ok(met) = answer {
        let word = if met.commute {
            "commute"
        } else {
            "anticommute"
        };
        print!(rt; ", {word}, phase {}", met.phase.power)?;
    }
    println!(rt; ", x {} {}, z {} {}", ox[0], ox[3], oz[0], oz[3])
}

// On two columns; and on 256, rows that differ in the last column only, a row with itself, and rows whose letters
// anticommute in two columns.
pub fn pairs(rt: &impl Print) -> io::Result<()> {
    let none = [0; 4];
    let one = [1, 0, 0, 0];
    let two = [2, 0, 0, 0];
    let three = [3, 0, 0, 0];
    let xi = row(0, &one, &none);
    let yi = row(1, &one, &one);
    pair(rt, "XI and YI", 2, xi, yi)?;
    pair(rt, "YI and XI", 2, yi, xi)?;
    pair(rt, "XI and IX", 2, xi, row(0, &two, &none))?;
    pair(rt, "YI and YI", 2, yi, yi)?;
    pair(
        rt,
        "XX and ZZ",
        2,
        row(0, &three, &none),
        row(0, &none, &three),
    )?;
    pair(rt, "XI with phase 4 and XI", 2, row(4, &one, &none), xi)?;
    let last = [0, 0, 0, 1 << 63];
    let both = [1, 0, 0, 1 << 63];
    let xx = row(0, &both, &none);
    let xz = row(0, &one, &last);
    let zz = row(0, &none, &both);
    pair(rt, "XI..IX and XI..IZ", 256, xx, xz)?;
    pair(rt, "XI..IZ and XI..IX", 256, xz, xx)?;
    pair(rt, "XI..IX and XI..IX", 256, xx, xx)?;
    pair(rt, "XI..IX and ZI..IZ", 256, xx, zz)
}
