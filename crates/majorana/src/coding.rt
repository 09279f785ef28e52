// Encoding and decoding mode by mode, from the highest.

ghost use Rattle.std.specs.Prelude.{◌≡◌, ◌*◌, ◌≤◌, length};
ghost use Rattle.refusal.specs.Numbers.{answered};
ghost use Rattle.algebra.specs.Coding as algebra;
ghost use Rattle.dense_block.specs.Words.{value, words_for};
ghost use Rattle.majorana.specs.HeldRows.{modes_of};
ghost use Rattle.majorana.specs.Codes.{encoded_paper};
ghost use Rattle.majorana.specs.Runs.{kept, read_off, ran, ran_out, ran_number, ran_list};

use crate::rows::Rows;
use pauli::Phase;
use refusal::Refusal;

// Starts the state s at the vacuum and occupies the modes of the list in it; none if one is not empty. The phase grows by
// p0 + 2(z0·s) a mode: the p0 are added, the z0·s folded, and the ones of all the folds counted once.
fn occupy_all(rows: &Rows, vacuum: &[u64], list: &[u64], s: &mut [u64]) -> Option<Phase>
    requires { (length vacuum.now ≡ rows.now.w) × (length s.old ≡ rows.now.w) }
    ensures { kept result s.new ≡ algebra.encode (modes_of rows.now) (value vacuum.now) (value list.now) }
{
    s.copy_from_slice(vacuum);
    let mut f = Phase { power: 0 };
    let mut fold = 0u64;
    for k in (0..rows.set.modes).rev() {
        if dense_block::get_index(list, k) {
            let t = rows.act(k, s);
            if !t.is_empty(rows.difference(k)) {
                return None;
            }
            f = f.add(rows.row(2 * k).phase);
            fold ^= t.first;
        }
    }
    Some(f.double_parity(dense_block::parity(fold)))
}

// Encodes the list, and copies the string to out if every mode went well.
pub fn encode(rows: &Rows, vacuum: &[u64], list: &[u64], out: &mut [u64]) -> Result<Phase, Refusal>
    requires { (length vacuum.now ≡ rows.now.w) × (rows.now.w ≤ length out.old) }
    ensures { (encoded_paper result ≡ ran (algebra.encode (modes_of rows.now) (value vacuum.now) (value list.now)))
        × (out.new ≡ ran_out (algebra.encode (modes_of rows.now) (value vacuum.now) (value list.now)) rows.now.w out.old) }
{
    let mut state = [0u64; 4];
    let s = &mut state[..rows.w];
    let Some(f) = occupy_all(rows, vacuum, list, s) else {
        return Err(Refusal::Unencodable);
    };
    out[..rows.w].copy_from_slice(s);
    Ok(f)
}

// Reads the occupied modes off the state s into l, and answers whether the vacuum is left.
fn read_off(rows: &Rows, vacuum: &[u64], s: &mut [u64], l: &mut [u64]) -> bool
    requires { (length vacuum.now ≡ rows.now.w) × (length s.old ≡ rows.now.w)
        × (rows.now.set.modes ≤ 64 * length l.old) × (value l.old ≡ 0) }
    ensures { read_off result (value l.new) ≡ algebra.decode (modes_of rows.now) (value vacuum.now) (value s.old) }
{
    for i in (0..rows.set.modes).rev() {
        let d = rows.difference(i);
        let t = rows.look(i, s);
        if !t.is_paired(d) {
            return false;
        }
        if t.is_seen(d) {
            dense_block::set_index(l, i, true);
            dense_block::xor_assign(s, rows.row(2 * i).x);
        }
    }
    dense_block::same(s, vacuum)
}

// Decodes the string, and copies the list to out if the vacuum is left.
pub fn decode(rows: &Rows, vacuum: &[u64], string: &[u64], out: &mut [u64]) -> Result<(), Refusal>
    requires { (length vacuum.now ≡ rows.now.w) × (length string.now ≡ rows.now.w)
        × (words_for rows.now.set.modes ≤ length out.old) }
    ensures { (answered result ≡ ran_number (algebra.decode (modes_of rows.now) (value vacuum.now) (value string.now)))
        × (out.new ≡ ran_list (algebra.decode (modes_of rows.now) (value vacuum.now) (value string.now))
        (words_for rows.now.set.modes) out.old) }
{
    let mut state = [0u64; 4];
    let s = &mut state[..rows.w];
    s.copy_from_slice(string);
    let lw = dense_block::words_for(rows.set.modes);
    let mut list = [0u64; 4];
    let l = &mut list[..lw];
    if !read_off(rows, vacuum, s, l) {
        return Err(Refusal::Undecodable);
    }
    out[..lw].copy_from_slice(l);
    Ok(())
}
