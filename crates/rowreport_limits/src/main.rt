// Feeds texts to the reader as rowreport does, in chunks of a few bytes, and writes a line for each: what it is, the
// number of the answer, the line at fault and the bytes that are written. Long texts, at the limits of what is taken,
// and a text for each way not to be well formed.

#![tactic(auto)]

ghost use Rattle.std.specs.Prelude.{◌≤◌, ◌<◌};

use flatpack_text::read;
use flatpack_text::read::State;
use report::reply;
use std::io;

// Writes what is answered to the text that led to a state: 0 for a text that is done, and for a line that none is.
fn answer(rt: &impl Print, case: &[u8], s: State, table: &[usize]) -> io::Result<()> {
    let mut out = [0u8; 164480];
    let r = reply::respond(s, table, &mut out);
    let number = refusal::number(&r.answer);
    let line = r.line.unwrap_or(0);
    rt.write_all(case)?;
    println!(rt; ": {}, line {}, bytes {}", number, line, r.length)
}

// A number and the byte after it.
fn feed_number(s: State, v: u64, end: u8, table: &mut [usize]) -> State {
    let mut digits = itoa::Buffer::new();
    let t = read::feed(s, digits.format(v).as_bytes(), table);
    read::feed(t, &[end], table)
}

// The Z slot of node i of n, and a line feed.
fn feed_below(s: State, i: u64, n: u64, table: &mut [usize]) -> State
    requires { i < 1000 }
{
    if i + 1 < n {
        feed_number(s, i + 1, b'\n', table)
    } else {
        read::feed(s, b"-\n", table)
    }
}

// The line of node i of n.
fn feed_node(s: State, i: u64, n: u64, table: &mut [usize]) -> State
    requires { (i < 1000) × (n ≤ 1000) }
{
    let s = feed_number(s, i, b'\t', table);
    let s = feed_number(s, n + 2 * i, b'\t', table);
    let s = feed_number(s, n + 2 * i + 1, b'\t', table);
    feed_below(s, i, n, table)
}

// The Jordan-Wigner tree of n nodes, with leaves: n at most 1000.
fn feed_chain(n: u64, table: &mut [usize]) -> State {
    let mut s = read::start();
    if 1000 < n {
        return s;
    }
    for i in 0..n {
        s = feed_node(s, i, n, table);
    }
    s
}

// n good lines after a text, all alike.
fn feed_good(s: State, n: u64, table: &mut [usize]) -> State {
    let mut t = s;
    for _ in 0..n {
        t = read::feed(t, b"0\t1\t2\t-\n", table);
    }
    t
}

fn chain(rt: &impl Print, case: &[u8], n: u64) -> io::Result<()> {
    let mut table = [0usize; 1024];
    let s = feed_chain(n, &mut table);
    answer(rt, case, s, &table)
}

// n good lines, and then a text.
fn after_good(rt: &impl Print, case: &[u8], n: u64, text: &[u8]) -> io::Result<()> {
    let mut table = [0usize; 1024];
    let s = feed_good(read::start(), n, &mut table);
    let t = read::feed(s, text, &mut table);
    answer(rt, case, t, &table)
}

// A text, and then n good lines.
fn before_good(rt: &impl Print, case: &[u8], text: &[u8], n: u64) -> io::Result<()> {
    let mut table = [0usize; 1024];
    let s = read::feed(read::start(), text, &mut table);
    let t = feed_good(s, n, &mut table);
    answer(rt, case, t, &table)
}

fn long_texts(rt: &impl Print) -> io::Result<()> {
    after_good(rt, b"an empty text", 0, b"")?;
    chain(rt, b"1 entry", 1)?;
    chain(rt, b"128 entries", 128)?;
    chain(rt, b"129 entries", 129)?;
    chain(rt, b"256 entries", 256)?;
    chain(rt, b"257 entries", 257)?;
    after_good(rt, b"100,000 good lines", 100000, b"")?;
    after_good(
        rt,
        b"100,000 good lines and then a bad one",
        100000,
        b"0\t1\t2\n",
    )?;
    before_good(
        rt,
        b"a bad line and then 100,000 good ones",
        b"0\t1\t2\n",
        100000,
    )?;
    after_good(rt, b"qubit 255", 0, b"255\t256\t257\t-\n")?;
    after_good(rt, b"qubit 256", 0, b"256\t257\t258\t-\n")
}

fn malformed(rt: &impl Print) -> io::Result<()> {
    after_good(rt, b"CR before LF", 1, b"1\t4\t5\t-\r\n")?;
    after_good(rt, b"a blank at a line's end", 1, b"1\t4\t5\t- \n")?;
    after_good(rt, b"a trailing tab", 1, b"1\t4\t5\t-\t\n")?;
    after_good(rt, b"00", 1, b"1\t4\t5\t00\n")?;
    after_good(rt, b"65535", 1, b"1\t4\t5\t65535\n")?;
    after_good(rt, b"65536", 1, b"1\t4\t5\t65536\n")?;
    after_good(rt, b"+1", 1, b"1\t4\t5\t+1\n")?;
    after_good(rt, b"a NUL byte", 1, b"1\t4\t5\t-\0\n")?;
    after_good(rt, b"no last line feed", 1, b"1\t4\t5\t-")?;
    after_good(rt, b"a dash as qubit", 1, b"-\t4\t5\t-\n")?;
    after_good(rt, b"three fields", 1, b"1\t4\t5\n")?;
    after_good(rt, b"five fields", 1, b"1\t4\t5\t-\t-\n")?;
    after_good(rt, b"an empty line", 1, b"\n")
}

fn main(rt: HostRuntime) -> io::Result<()> {
    long_texts(&rt)?;
    malformed(&rt)
}
