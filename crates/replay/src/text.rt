// Hexadecimal numbers read from a text, and answers written.

use refusal::Refusal;
use std::fmt::Radix;
use std::io;

// The value of a hexadecimal digit. A capital is none here, which std's to_digit takes.
fn digit(b: u8) -> Option<u64> {
    match b {
        b'0'..=b'9' => Some(u64::from(b - b'0')),
        b'a'..=b'f' => Some(u64::from(b - b'a' + 10)),
        _ => None,
    }
}

pub fn low_byte(k: u64) -> u8 {
    (k % 256) as u8
}

// The numbers of a text: its runs of digits, of which the last sixteen count. std's from_str_radix refuses longer ones.
#[derive(Drop)]
pub struct Numbers<'a> {
    rest: &'a [u8],
}

impl Iterator for Numbers<'_> {
    type Item = u64;

    fn next(&mut self) -> Option<u64> {
        let start = self.rest.iter().position(|b| digit(*b).is_some())?;
        let run = &self.rest[start..];
        let end = run.iter().position(|b| digit(*b).is_none());
        let (word, rest) = run.split_at(end.unwrap_or(run.len()));
        self.rest = rest;
        Some(
            word.iter()
                .filter_map(|b| digit(*b))
                .fold(0, |value, d| value << 4 | d),
        )
    }
}

impl<'a> Numbers<'a> {
    pub fn of(text: &'a [u8]) -> Numbers<'a> {
        Numbers { rest: text }
    }

    // The next number; 0 at the end of the text, and so for what is made of several.
    pub fn number(&mut self) -> u64 {
        self.next().unwrap_or(0)
    }

    pub fn two(&mut self) -> [u64; 2] {
        [self.number(), self.number()]
    }

    // Fills a slice with what `entry` makes of the next numbers.
    pub fn fill<T: Drop, F: Fn(u64) -> T>(&mut self, out: &mut [T], entry: F)
        requires { F.IsAlwaysCallable entry }
    {
        for slot in out {
            *slot = entry(self.number());
        }
    }
}

// Writes numbers, a blank before each.
pub fn out<T: Radix + Copy>(rt: &impl Print, s: &[T]) -> io::Result<()> {
    for k in s {
        print!(rt; " {k:x}")?;
    }
    Ok(())
}

// Writes the number of an answer, and 10's pair.
pub fn answer<T>(rt: &impl Print, answer: &Result<T, Refusal>) -> io::Result<()> {
    print!(rt; "{:x}", refusal::number(answer))?;
    if let Err(Refusal::Commuting(i, j)) = answer {
        print!(rt; " {i:x} {j:x}")?;
    }
    Ok(())
}
