// Reads flatpack text with leaves from standard input to its end and writes the report of its rows, or `refused`, a tab
// and the number of the refusal. What a refusal means, and where it was found if that is known, goes to standard error.
// Nothing is written before the answer is known.

#![tactic(auto)]

ghost use Rattle.std.specs.Prelude.{◌≡◌};
ghost use Rattle.rowreport.specs.Reads.{Turned, Gathered};

use rowreport_core::Reading;
use std::io;
use std::io::{ErrorKind, Read};

// What is held at the end, and how many chunks were taken.
#[derive(Clone, Copy)]
struct Whole {
    reading: Reading,
    chunks: u64,
}

// Reads one chunk and takes it; None at the end of the text.
fn take_some(input: &mut impl Read, r: Reading) -> io::Result<Option<Reading>>
    ensures { Turned r result }
{
    let mut chunk = [0u8; 512];
    let n = input.read(&mut chunk)?;
    if n == 0 {
        return Ok(None);
    }
    Ok(Some(rowreport_core::take(r, &chunk[..n])))
}

// Reads to the end. A proved loop has to end, and nothing says that a text does: so it counts, as far as a number that
// no run reaches.
fn take_all(input: &mut impl Read) -> io::Result<Whole>
    ensures { Gathered result }
{
    let mut reading = rowreport_core::begin();
    for chunks in 0..u64::MAX {
        let Some(more) = take_some(input, reading)? else {
            return Ok(Whole { reading, chunks });
        };
        reading = more;
    }
    Err(io::Error::from(ErrorKind::FileTooLarge))
}

// Writes the first k bytes of a text: all of them, or it says that it could not.
fn put<const N: usize>(to: &impl Print, text: &[u8; N], k: usize) -> bool {
    let bytes: &[u8] = text;
    k <= bytes.len() && to.write_all(&bytes[..k]).is_ok()
}

// The same for standard output: the length of the buffer is a type, so that no other text is taken.
fn to_output(output: &impl Print, text: &[u8; 164480], k: usize) -> bool {
    put(output, text, k)
}

// The same for standard error.
fn to_error(error: &impl Print, text: &[u8; 256], k: usize) -> bool {
    put(error, text, k)
}

// Writes what is answered to a text.
fn answer(output: &impl Print, error: &impl Print, r: Reading) {
    let mut report = [0u8; 164480];
    let mut sentence = [0u8; 256];
    let lengths = rowreport_core::texts(r, &mut report, &mut sentence);
    if to_output(output, &report, lengths.output) {
        to_error(error, &sentence, lengths.error);
    } else {
        let _ = error.write_all(b"rowreport: standard output cannot be written.\n");
    }
}

fn main(rt: HostRuntime) {
    let mut input = rt.stdin();
    let output = rt.stdout();
    let error = rt.stderr();
    let Ok(whole) = take_all(&mut input) else {
        let _ = error.write_all(b"rowreport: standard input cannot be read.\n");
        return;
    };
    answer(&output, &error, whole.reading);
}
