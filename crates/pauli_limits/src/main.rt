// Runs the product of two rows at the limits of what it takes, and writes a line for each call: the number handed back,
// the phase, whether the rows commute, and every word of the buffers, which held 7 before. Two columns need one word of
// each part, and 65 columns two; 256 columns are run in `small_cases`.

#![tactic(auto)]

ghost use Rattle.std.specs.Prelude.{◌≤◌};

use pauli::{Meeting, Phase, Row};
use std::io;

// The line of a call, which is lent so many words for each part of the product.
fn call(
    rt: &impl Print,
    case: &str,
    columns: usize,
    left: Row,
    right: Row,
    x: usize,
    z: usize,
) -> io::Result<()>
    requires { (x ≤ 2) × (z ≤ 2) }
{
    let mut ox = [7u64; 2];
    let mut oz = [7u64; 2];
    let answer = pauli::multiply(columns, left, right, &mut ox[..x], &mut oz[..z]);
    print!(rt; "{case}: {}", refusal::number(&answer))?;
    if let Ok(Meeting { phase, commute }) = answer {
        let word = if commute { "commute" } else { "anticommute" };
        print!(rt; ", phase {}, {word}", phase.power)?;
    }
    println!(rt; ", x {} {}, z {} {}", ox[0], ox[1], oz[0], oz[1])
}

fn row<'a>(power: u8, x: &'a [u64], z: &'a [u64]) -> Row<'a> {
    Row {
        phase: Phase { power },
        x,
        z,
    }
}

// X and Y in column 0, with two words of each part.
fn sized(rt: &impl Print, case: &str, columns: usize, left: u8, right: u8) -> io::Result<()> {
    let one = [1, 0];
    call(
        rt,
        case,
        columns,
        row(left, &one, &[0, 0]),
        row(right, &one, &one),
        2,
        2,
    )
}

fn sizes(rt: &impl Print) -> io::Result<()> {
    sized(rt, "1 column", 1, 0, 1)?;
    sized(rt, "phases 3 and 3", 1, 3, 3)?;
    sized(rt, "left phase 4", 1, 4, 1)?;
    sized(rt, "right phase 4", 1, 0, 4)?;
    sized(rt, "0 columns", 0, 0, 1)?;
    sized(rt, "257 columns", 257, 0, 1)?;
    sized(rt, "the largest number of columns", usize::MAX, 0, 1)
}

// Phases 0, and one word of each part that is read.
fn words(
    rt: &impl Print,
    case: &str,
    columns: usize,
    lx: u64,
    lz: u64,
    rx: u64,
    rz: u64,
) -> io::Result<()> {
    call(
        rt,
        case,
        columns,
        row(0, &[lx], &[lz]),
        row(0, &[rx], &[rz]),
        2,
        2,
    )
}

// The highest bit set is in the last column, or past it.
fn strays(rt: &impl Print) -> io::Result<()> {
    let last = 1 << 63;
    words(rt, "bit 2 on 3 columns", 3, 4, 0, 0, 0)?;
    words(rt, "left X part, bit 2 on 2 columns", 2, 4, 0, 0, 0)?;
    words(rt, "left Z part, bit 2 on 2 columns", 2, 0, 4, 0, 0)?;
    words(rt, "right X part, bit 2 on 2 columns", 2, 0, 0, 4, 0)?;
    words(rt, "right Z part, bit 2 on 2 columns", 2, 0, 0, 0, 4)?;
    words(rt, "X and Z at bit 63 on 64 columns", 64, last, 0, 0, last)?;
    words(rt, "X and Z at bit 63 on 63 columns", 63, last, 0, 0, last)
}

// On 65 columns, where one part has one word and two are needed.
fn one_short(rt: &impl Print) -> io::Result<()> {
    let one = [1];
    let two = [1, 1];
    let whole = row(0, &two, &two);
    call(rt, "nothing short", 65, whole, whole, 2, 2)?;
    call(rt, "left X part short", 65, row(0, &one, &two), whole, 2, 2)?;
    call(rt, "left Z part short", 65, row(0, &two, &one), whole, 2, 2)?;
    call(
        rt,
        "right X part short",
        65,
        whole,
        row(0, &one, &two),
        2,
        2,
    )?;
    call(
        rt,
        "right Z part short",
        65,
        whole,
        row(0, &two, &one),
        2,
        2,
    )?;
    call(rt, "x short", 65, whole, whole, 1, 2)?;
    call(rt, "z short", 65, whole, whole, 2, 1)
}

fn main(rt: HostRuntime) -> io::Result<()> {
    sizes(&rt)?;
    strays(&rt)?;
    one_short(&rt)
}
