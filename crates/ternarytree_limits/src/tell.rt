// What the program writes: the head of a line, and what is left of each slice.

use refusal::Refusal;
use std::fmt::Display;
use std::io;
use trees::Named;

// What a call leaves.
#[derive(Clone, Copy)]
pub struct Slices<'a> {
    pub x: &'a [u64],
    pub z: &'a [u64],
    pub phases: &'a [u8],
    pub vacuum: &'a [u64],
    pub room: &'a [u64],
}

// Starts a line with the call, the case and the number handed back.
pub fn head(rt: &impl Print, call: &str, case: &str, r: Result<(), Refusal>) -> io::Result<()> {
    print!(rt; "{call}, {case}: {}", refusal::number(&r))
}

// The name of a named tree.
pub fn name(tree: Named) -> &'static str {
    match tree {
        Named::JordanWigner => "Jordan-Wigner",
        Named::Parity => "parity",
        Named::BravyiKitaev => "Bravyi-Kitaev",
        Named::Jkmn => "JKMN",
    }
}

// Writes the name of a slice and how many of its elements are 0 and how many 7.
fn counts<T: PartialEq>(rt: &impl Print, name: &str, s: &[T], zero: T, seven: T) -> io::Result<()>
where
    T: Drop,
{
    let zeros = s.iter().filter(|e| **e == zero).count();
    let sevens = s.iter().filter(|e| **e == seven).count();
    print!(rt; ", {name} {zeros} {sevens}")
}

// Writes the name of a slice and its elements, a blank before each.
fn elements<T: Display>(rt: &impl Print, name: &str, s: &[T]) -> io::Result<()> {
    print!(rt; ", {name}")?;
    for e in s {
        print!(rt; " {e}")?;
    }
    Ok(())
}

// Writes how much of each slice is 0 and how much 7.
pub fn tally(rt: &impl Print, s: Slices) -> io::Result<()> {
    counts(rt, "x", s.x, 0, 7)?;
    counts(rt, "z", s.z, 0, 7)?;
    counts(rt, "phases", s.phases, 0, 7)?;
    counts(rt, "vacuum", s.vacuum, 0, 7)?;
    counts(rt, "room", s.room, 0, 7)?;
    println!(rt;)
}

// Writes what is left after a call.
pub fn left(rt: &impl Print, s: Slices) -> io::Result<()> {
    elements(rt, "x", s.x)?;
    elements(rt, "z", s.z)?;
    elements(rt, "phases", s.phases)?;
    elements(rt, "vacuum", s.vacuum)?;
    elements(rt, "room", s.room)?;
    println!(rt;)
}
