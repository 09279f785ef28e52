// What `rowreport` answers to a text that was read: the bytes that it writes, and why and where it refuses.

ghost use Rattle.std.specs.Prelude.{◌≡◌};
ghost use Rattle.refusal.specs.Numbers.{answered};
ghost use Rattle.dense_block.specs.Words.{value};
ghost use Rattle.report.specs.Report.{rows_in};
ghost use Rattle.report.specs.Replies.{said_length, said, Builds, Replied};
ghost use Rattle.flatpack_text.specs.Moves.{finished};

use crate::write;
use crate::write::Rows;
use flatpack_text::read::State;
use flatpack_text::{flatpack, read};
use refusal::Refusal;
use trees::Flatpack;

#[derive(Clone, Copy, Debug, PartialEq, Eq)]
pub struct Reply {
    pub answer: Result<(), Refusal>,
    // The line that is no entry, if the text is not well formed.
    pub line: Option<usize>,
    // How many bytes are written.
    pub length: usize,
}

// Writes the report of rows that were built, or the number of the refusal.
fn tell(answer: Result<(), Refusal>, rows: Rows, vacuum: &[u64], out: &mut [u8]) -> usize
    ensures count { result ≡ said_length (answered answer) rows.entry.modes rows.entry.qubits (rows_in rows.entry) (value vacuum.now) out.old }
    ensures bytes { out.new ≡ said (answered answer) rows.entry.modes rows.entry.qubits (rows_in rows.entry) (value vacuum.now) out.old }
{
    match answer {
        Ok(()) => write::whole(rows, vacuum, out),
        Err(why) => write::refused_line(why.number(), out),
    }
}

// The reply to n entries, of which the table has the first 256.
fn build(n: usize, table: &[usize], out: &mut [u8]) -> Reply
    ensures { Builds n table.now out.old result out.new }
{
    let q = flatpack::qubits_used(table, n);
    let mut entries = [0usize; 1024];
    let mut filled = [false; 768];
    flatpack::plain_numbers(table, n, &mut entries);
    flatpack::filled_slots(table, n, &mut filled);
    let mut x = [0u64; 2048];
    let mut z = [0u64; 2048];
    let mut phases = [0u8; 512];
    let mut vacuum = [0u64; 4];
    let mut room = [0u64; 4096];
    let flat = Flatpack {
        modes: n,
        entries: &entries,
        filled: &filled,
    };
    let answer = ternarytree::from_flatpack(
        flat,
        q,
        &mut x,
        &mut z,
        &mut phases,
        &mut vacuum,
        &mut room,
    );
    let rows = Rows {
        modes: n,
        qubits: q,
        x: &x,
        z: &z,
        phases: &phases,
    };
    let length = tell(answer, rows, &vacuum, out);
    Reply {
        answer,
        line: None,
        length,
    }
}

// The reply to a text, from the state after it and the table of its first 256 entries: its report, or `refused`, a tab
// and the number. It is written to the front of a buffer, for which 164,480 bytes are enough; a report that has no room
// there, or a line that has none, is not written, and its length is 0.
pub fn respond(s: State, table: &[usize], out: &mut [u8]) -> Reply
    ensures { Replied (finished s) table.now out.old result out.new }
{
    match read::finish(s) {
        Ok(n) => build(n, table, out),
        Err(fault) => {
            let length = write::refused_line(Refusal::Malformed.number(), out);
            Reply {
                answer: Err(Refusal::Malformed),
                line: Some(fault.line),
                length,
            }
        }
    }
}
