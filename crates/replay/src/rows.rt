// How much of buffers for at most 128 modes on 128 qubits a case takes, and the rows that a call wrote in them.

ghost use Rattle.std.specs.Prelude.{◌≤◌};

use crate::text;
use std::io;

// The modes and qubits of a case.
#[derive(Clone, Copy)]
pub struct Size {
    pub modes: usize,
    pub qubits: usize,
}

impl Size {
    // The rows; 0 of more modes than 128, which a call refuses.
    pub fn rows(self) -> usize
        ensures { result ≤ 256 }
    {
        if 128 < self.modes { 0 } else { 2 * self.modes }
    }

    // The words of the X or Z parts.
    pub fn words(self) -> usize
        ensures { result ≤ 512 }
    {
        if 64 < self.qubits {
            2 * self.rows()
        } else {
            self.rows()
        }
    }
}

// The words of so many bits, of two; the second is 0 where one would do.
pub fn trimmed(words: &[u64; 2], bits: usize) -> &[u64] {
    if 64 < bits { words } else { &words[..1] }
}

// The rows of a set and its vacuum, as a call wrote them. The buffers are arrays of the function that makes the call,
// and only lent here: with a struct that holds them the program was measured to take up to 44 KiB of stack more.
#[derive(Clone, Copy)]
pub struct Rows<'a> {
    pub x: &'a [u64; 512],
    pub z: &'a [u64; 512],
    pub phases: &'a [u8; 256],
    pub vacuum: &'a [u64; 2],
}

impl Rows<'_> {
    pub fn out(self, rt: &impl Print, size: Size) -> io::Result<()> {
        let Rows { x, z, phases, .. } = self;
        text::out(rt, &x[..size.words()])?;
        text::out(rt, &z[..size.words()])?;
        text::out(rt, &phases[..size.rows()])
    }

    pub fn out_with_vacuum(self, rt: &impl Print, size: Size) -> io::Result<()> {
        self.out(rt, size)?;
        let vacuum = self.vacuum;
        text::out(rt, trimmed(vacuum, size.qubits))
    }
}
