// The calls that build rows, and their answers written: the number, and if it is done the rows and the vacuum.

use crate::rows::{Rows, Size};
use crate::text;
use crate::text::Numbers;
use refusal::Refusal;
use std::io;
use trees::{Flatpack, Named};

// MaxNTO has no vacuum.
pub fn maxnto(rt: &impl Print, modes: usize) -> io::Result<()> {
    let mut x = [7; 512];
    let mut z = [7; 512];
    let mut phases = [7; 256];
    let answer = maxnto::maxnto(modes, &mut x, &mut z, &mut phases);
    text::answer(rt, &answer)?;
    if answer.is_ok() {
        let size = Size {
            modes,
            qubits: modes,
        };
        let rows = Rows {
            x: &x,
            z: &z,
            phases: &phases,
            vacuum: &[0; 2],
        };
        rows.out(rt, size)?;
    }
    Ok(())
}

fn tree(rt: &impl Print, answer: Result<(), Refusal>, rows: Rows, size: Size) -> io::Result<()> {
    text::answer(rt, &answer)?;
    if answer.is_ok() {
        rows.out_with_vacuum(rt, size)?;
    }
    Ok(())
}

// A named tree keeps as many columns as modes.
pub fn named(rt: &impl Print, number: u64, size: Size) -> io::Result<()> {
    let named = match number {
        0 => Named::JordanWigner,
        1 => Named::Parity,
        2 => Named::BravyiKitaev,
        _ => Named::Jkmn,
    };
    let mut x = [7; 512];
    let mut z = [7; 512];
    let mut phases = [7; 256];
    let mut vacuum = [7; 2];
    let answer = ternarytree::from_name(
        named,
        size.modes,
        size.qubits,
        &mut x,
        &mut z,
        &mut phases,
        &mut vacuum,
        &mut [7; 1024],
    );
    let kept = Size {
        modes: size.modes,
        qubits: size.modes,
    };
    let rows = Rows {
        x: &x,
        z: &z,
        phases: &phases,
        vacuum: &vacuum,
    };
    tree(rt, answer, rows, kept)
}

// The entries stand in the text, four numbers each, and then which slots are filled.
pub fn flatpack(
    rt: &impl Print,
    leaves: bool,
    size: Size,
    numbers: &mut Numbers,
) -> io::Result<()> {
    let mut entries = [0; 512];
    let mut filled = [false; 384];
    let mut room = [7; 1024];
    let count = size.rows() / 2;
    numbers.fill(&mut entries[..4 * count], |k| k as usize);
    numbers.fill(&mut filled[..3 * count], |k| k != 0);
    let flat = Flatpack {
        modes: size.modes,
        entries: &entries,
        filled: &filled,
    };
    let mut x = [7; 512];
    let mut z = [7; 512];
    let mut p = [7; 256];
    let mut v = [7; 2];
    let q = size.qubits;
    let answer = if leaves {
        ternarytree::from_flatpack(flat, q, &mut x, &mut z, &mut p, &mut v, &mut room)
    } else {
        ternarytree::from_flatpack_naive(flat, q, &mut x, &mut z, &mut p, &mut v, &mut room)
    };
    let rows = Rows {
        x: &x,
        z: &z,
        phases: &p,
        vacuum: &v,
    };
    tree(rt, answer, rows, size)
}
