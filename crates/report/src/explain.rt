// What a refusal means, as one sentence in plain words.

ghost use Rattle.std.specs.Prelude.{◌≡◌, ◌+◌, ◌≤◌, ◌<◌, length};
ghost use Rattle.std.proofs.lemmas.List.Edits.{sets};
ghost use Rattle.report.specs.Explain.{piece, phrase, line_mark, spot_mark, spot_words, place, explained_length, explained};

use crate::locate::Site;
use crate::pieces::{put_number, put_word};
use refusal::Refusal;

// A slot of a line.
#[derive(Clone, Copy, Debug, PartialEq, Eq)]
pub enum Spot {
    X,
    Y,
    Z,
}

// A full stop if no line is named after it, and else a comma.
fn line_mark(site: Option<Site>) -> u8
    ensures { result ≡ line_mark site }
{
    if site.is_some() { b',' } else { b'.' }
}

// The same of a slot.
fn spot_mark(spot: Option<Spot>) -> u8
    ensures { result ≡ spot_mark spot }
{
    if spot.is_some() { b',' } else { b'.' }
}

// The slot and a line feed.
fn put_spot(out: &mut [u8], at: usize, spot: Option<Spot>) -> usize
    requires { at + 8 < length out.old }
    ensures spot { result ≡ at + length (piece (spot_words spot) 10) }
    ensures bytes { out.new ≡ sets out.old at (piece (spot_words spot) 10) }
{
    match spot {
        None => put_word(out, at, b"", b'\n'),
        Some(Spot::X) => put_word(out, at, b" slot X.", b'\n'),
        Some(Spot::Y) => put_word(out, at, b" slot Y.", b'\n'),
        Some(Spot::Z) => put_word(out, at, b" slot Z.", b'\n'),
    }
}

// The line and the slot, if they are known, and a line feed.
fn put_place(out: &mut [u8], at: usize, site: Option<Site>) -> usize
    requires { at + 64 ≤ length out.old }
    ensures spot { result ≡ at + length (place site) }
    ensures bytes { out.new ≡ sets out.old at (place site) }
    ensures short { length (place site) ≤ 40 }
{
    let Some(site) = site else {
        return put_word(out, at, b"", b'\n');
    };
    let a = put_word(out, at, b" at line", b' ');
    let b = put_number(out, a, site.line, spot_mark(site.spot));
    put_spot(out, b, site.spot)
}

// What the refusal means, and the byte that ends it.
#[tactic(auto, unfolding(crate::specs::Explain::phrase))]
fn put_phrase(out: &mut [u8], at: usize, why: Refusal, end: u8) -> usize
    requires { at + 64 ≤ length out.old }
    ensures place { result ≡ at + length (piece (phrase why) end) }
    ensures bytes { out.new ≡ sets out.old at (piece (phrase why) end) }
{
    match why {
        Refusal::Size => put_word(out, at, b" not 1 to 256 entries on qubits 0 to 255", end),
        Refusal::Short => put_word(out, at, b" a lent slice is shorter than stated", end),
        Refusal::Qubits => put_word(out, at, b" more entries than qubits, so one repeats", end),
        Refusal::Child => put_word(out, at, b" a slot's number is neither node nor leaf", end),
        Refusal::SelfChild => put_word(out, at, b" a node is its own child", end),
        Refusal::SecondParent => put_word(out, at, b" a node gets a second parent", end),
        Refusal::SecondEntry => put_word(out, at, b" a qubit has two entries", end),
        Refusal::Roots => put_word(out, at, b" not all nodes hang from one root", end),
        Refusal::Leaf => put_word(out, at, b" leaf out of range, used twice or missing", end),
        Refusal::Commuting(_, _) => put_word(out, at, b" two rows commute", end),
        Refusal::Dependent => put_word(out, at, b" the rows are dependent", end),
        Refusal::NoVacuum => put_word(out, at, b" no vacuum solves the rule", end),
        Refusal::Vacuum => put_word(out, at, b" the all-zero vacuum breaks the vacuum rule", end),
        Refusal::Undecodable => put_word(out, at, b" decoding does not end at the vacuum", end),
        Refusal::Unencodable => put_word(out, at, b" encoding meets an unmet condition", end),
        Refusal::Malformed => put_word(out, at, b" not well formed: qubit, X, Y, Z with tabs", end),
        Refusal::Value => put_word(out, at, b" a value is outside what is allowed", end),
        Refusal::OddModes => put_word(out, at, b" the number of modes is odd", end),
    }
}

// The sentence for a refusal, with the line and the slot where it was found if that is known. It is written to the
// front of a buffer of at least 256 bytes, and its length handed back; in a smaller one nothing is written and 0 is
// handed back.
pub fn explain(why: Refusal, site: Option<Site>, out: &mut [u8]) -> usize
    ensures count { result ≡ explained_length why site out.old }
    ensures bytes { out.new ≡ explained why site out.old }
{
    if out.len() < 256 {
        return 0;
    }
    let a = put_word(out, 0, b"rowreport: refused", b' ');
    let b = put_number(out, a, why.number() as usize, b':');
    let c = put_phrase(out, b, why, line_mark(site));
    put_place(out, c, site)
}
