// The program `rowreport` but for its input and output: what it holds of a text while it reads, and the two texts that
// it writes. The lengths of its buffers are types here.
//
//   begin    before the first byte
//   take     a chunk more
//   texts    at the end of the text: what goes to standard output, and what to standard error

#![tactic(auto)]

ghost use Rattle.std.specs.Prelude.{◌≡◌};
ghost use Rattle.flatpack_text.specs.Calls.{Feeds};
ghost use Rattle.rowreport_core.specs.Program.{begun};
ghost use Rattle.rowreport_core.specs.Held.{Explained, Answers};

use flatpack_text::read;
use flatpack_text::read::State;
use refusal::Refusal;
use report::{explain, locate, reply};

// What is held of a text.
#[derive(Clone, Copy)]
pub struct Reading {
    // After the bytes so far.
    pub state: State,
    // Its first 256 entries, four numbers each.
    pub table: [usize; 1024],
}

// How many bytes of each buffer are written.
#[derive(Clone, Copy)]
pub struct Lengths {
    // For standard output.
    pub output: usize,
    // For standard error: none unless the text is refused.
    pub error: usize,
}

// Nothing is read yet.
pub fn begin() -> Reading
    ensures { result ≡ begun }
{
    Reading {
        state: read::start(),
        table: [0; 1024],
    }
}

// A chunk more of the text.
pub fn take(r: Reading, chunk: &[u8]) -> Reading
    ensures { Feeds r.state chunk.now r.table result.state result.table }
{
    let mut table = r.table;
    let state = read::feed(r.state, chunk, &mut table);
    Reading { state, table }
}

// The sentence for an answer, and where the text is at fault: nothing for a text that is done.
fn sentence(answer: Result<(), Refusal>, s: State, table: &[usize], error: &mut [u8; 256]) -> usize
    ensures { Explained answer s table.now error.old result error.new }
{
    match answer {
        Ok(()) => 0,
        Err(why) => explain::explain(why, locate::locate(s, table), error),
    }
}

// The report of the text or the number of its refusal in `output`, and what a refusal means, with its place, in
// `error`: each at the front of its buffer, which is long enough for every text.
pub fn texts(r: Reading, output: &mut [u8; 164480], error: &mut [u8; 256]) -> Lengths
    ensures { Answers r output.old error.old result output.new error.new }
{
    let reply = reply::respond(r.state, &r.table, output);
    Lengths {
        output: reply.length,
        error: sentence(reply.answer, r.state, &r.table, error),
    }
}
