// The MaxNTO row set: for an even number n of modes, 2n rows on n columns.
//
//   maxnto   writes the X parts, the Z parts and the phases of the rows

#![tactic(auto)]

ghost use Rattle.std.specs.Prelude.{◌≡◌, ◌-◌, ◌*◌, ◌/◌, ◌^◌, ◌<◌, ◌≤◌, length};
ghost use Rattle.dense_block.specs.Words.{words_for, words_of};
ghost use Rattle.dense_block.specs.Blocks.{word_at, laid, listed};
ghost use Rattle.maxnto.specs.Formula.{x_part, z_part, phase_of};
ghost use Rattle.maxnto.specs.Call.{given, Built};

use refusal::{Lent, Refusal};

// Word k of the number that has a 1 in each column below c.
fn ones_below(c: usize, k: usize) -> u64
    requires { k < 4 }
    ensures { result ≡ word_at (2 ^ c - 1) k }
{
    let from = 64 * k;
    // returns, and no `else if`: with that the compiler made the rows of 256 modes take a fifth more instructions
    if c <= from {
        return 0;
    }
    if 64 <= c - from {
        return u64::MAX;
    }
    (1 << (c - from)) - 1
}

// Row `number` of the set of `modes` modes.
#[derive(Clone, Copy)]
struct Row {
    modes: usize,
    number: usize,
    ghost few: { modes ≤ 256 },
    ghost within: { number < 2 * modes },
}

// i is the row's mode: the row is 2i or 2i + 1.
impl Row {
    // Word k of the X part, a 1 off column i, and of the Z part: in row 2i a 1 at j ≤ i for even i, at j > i for odd i,
    // and in row 2i + 1 the same flipped off column i.
    fn words(self, k: usize) -> (u64, u64)
        requires { k < 4 }
        ensures x_word { result.0 ≡ word_at (x_part self.modes self.number) k }
        ensures z_word { result.1 ≡ word_at (z_part self.modes self.number) k }
    {
        let i = self.number / 2;
        let all = ones_below(self.modes, k);
        let upto = ones_below(i + 1, k);
        let x = all ^ (ones_below(i, k) ^ upto);
        let even = if i % 2 == 0 { upto } else { all ^ upto };
        let z = if self.number % 2 == 0 { even } else { even ^ x };
        (x, z)
    }

    // Writes the X and Z parts; the phase.
    fn put(self, x: &mut [u64], z: &mut [u64]) -> u8
        requires { (length x.old ≡ words_for self.modes) × (length z.old ≡ words_for self.modes) }
        ensures phase { result ≡ phase_of self.modes self.number }
        ensures x_part { x.new ≡ words_of (words_for self.modes) (x_part self.modes self.number) }
        ensures z_part { z.new ≡ words_of (words_for self.modes) (z_part self.modes self.number) }
    {
        for k in 0..x.len() {
            (x[k], z[k]) = self.words(k);
        }
        (dense_block::and_count_ones(x, z) % 4) as u8
    }
}

// Writes the rows of an even number of modes, each part of a row in w words.
fn put_rows(modes: usize, w: usize, x: &mut [u64], z: &mut [u64], phases: &mut [u8])
    requires few { (modes ≤ 256) × (w ≡ words_for modes) }
    requires room { (2 * modes * w ≤ length x.old) × (2 * modes * w ≤ length z.old) × (2 * modes ≤ length phases.old) }
    ensures x_parts { x.new ≡ laid w (x_part modes) (2 * modes) x.old }
    ensures z_parts { z.new ≡ laid w (z_part modes) (2 * modes) z.old }
    ensures phase_list { phases.new ≡ listed (phase_of modes) (2 * modes) phases.old }
{
    for number in 0..2 * modes {
        let row = Row { modes, number };
        let a = number * w;
        let e = a + w;
        phases[number] = row.put(&mut x[a..e], &mut z[a..e]);
    }
}

// The MaxNTO rows of n modes. Done: the X and Z parts are in the first 2n · ceil(n / 64) words of x and z, the phases
// in the first 2n of `phases`, and what lies past them stays. Refused: nothing is changed.
pub fn maxnto(modes: usize, x: &mut [u64], z: &mut [u64], phases: &mut [u8]) -> Result<(), Refusal>
    ensures { Built (given modes x.old z.old phases.old) result x.new z.new phases.new }
{
    if refusal::outside(modes) {
        return Err(Refusal::Size);
    }
    if modes % 2 == 1 {
        return Err(Refusal::OddModes);
    }
    let w = dense_block::words_for(modes);
    let rows = 2 * modes;
    let words = rows * w;
    let lent = [
        Lent(words, x.len()),
        Lent(words, z.len()),
        Lent(rows, phases.len()),
    ];
    if refusal::any_short(&lent) {
        return Err(Refusal::Short);
    }
    put_rows(modes, w, x, z, phases);
    Ok(())
}
