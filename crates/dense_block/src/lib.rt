// Bit rows packed into words: column j is bit j mod 64 of word j / 64. Every function is total. One that goes along two rows goes as far as the shorter, as `zip`
// does; `same` is false of rows of different lengths.
//
//   words_for                       how many words a row takes
//   get_index, set_index            one column
//   xor_assign                      a row added to another, word by word
//   fold_and, fold_both, parity     the common ones of rows folded into a word, and the parity of its ones
//   parity_and, and_count_ones      the common ones of two rows: their parity, their number
//   clear, copy, same, stray        words made zero, copied and compared; a bit past the last column
//   get_term, stray_block           a row of a block of rows; a bit past the last column in one of them
//
// Kept as they were, and why:
//   loops over two rows go by index: `zip` was measured, and takes 11 to 28% more instructions on rows of 1 to 8 words;
//   what is written through `iter_mut().zip(..)` a proof does not know afterwards
//   a block of rows is (x, width), and no struct: each caller has the two apart, and would make one for a single call

#![tactic(auto)]

ghost use Rattle.std.specs.Prelude.{◌≡◌, ℕ, ◌+◌, ◌*◌, ◌/◌, ◌%◌, ◌^◌, ◌<◌, ◌≤◌, min, ltb, length, ◌==◌, bit_xor, count_ones, nat_lt, slice_index};
ghost use Rattle.refusal.specs.Search.{some_below};
ghost use Rattle.algebra.specs.Rows.{common, dot};
ghost use Rattle.dense_block.specs.Words.{value, words_for, column, put, xors, folded, odd, zeroed, copied, alike, strays, term_of, strays_in};

// How many words a row of q columns takes.
pub fn words_for(q: usize) -> usize
    ensures { result ≡ words_for q }
{
    q.div_ceil(64)
}

// Word i of a row; 0 past the end.
fn word(s: &[u64], i: usize) -> u64
    ensures { result ≡ slice_index s.now i }
{
    s.get(i).copied().unwrap_or(0)
}

// Column j of a row; false past the end.
pub fn get_index(s: &[u64], j: usize) -> bool
    ensures { result ≡ column s.now j }
{
    (word(s, j / 64) >> (j % 64)) & 1 == 1
}

// Makes column j of a row `on`; past the end nothing changes.
pub fn set_index(s: &mut [u64], j: usize, on: bool)
    ensures { s.new ≡ put s.old j on }
{
    let w = j / 64;
    if w < s.len() {
        let m = 1u64 << (j % 64);
        if on {
            s[w] |= m;
        } else {
            s[w] &= !m;
        }
    }
}

// Adds the row src to dst, word by word.
pub fn xor_assign(dst: &mut [u64], src: &[u64])
    ensures { dst.new ≡ xors dst.old src.now }
{
    for i in 0..dst.len().min(src.len()) {
        dst[i] ^= src[i];
    }
}

// The words of the common ones of two rows, folded into one by xor. Ones that meet in it fall away two by two, so it keeps their parity, and not their number.
pub fn fold_and(a: &[u64], b: &[u64]) -> u64
    ensures word { result ≡ folded a.now b.now }
    ensures parity { count_ones result % 2 ≡ dot (value a.now) (value b.now) }
{
    let mut sum = 0;
    for at in 0..a.len().min(b.len()) {
        sum ^= a[at] & b[at];
    }
    sum
}

// The folds of a with b and of c with d in one, for an answer that takes both parities. Rows of one length are gone
// along together: two calls of `fold_and` give the same word, and were measured (docs/DECISIONS.md).
pub fn fold_both(a: &[u64], b: &[u64], c: &[u64], d: &[u64]) -> u64
    ensures word { result ≡ bit_xor (folded a.now b.now) (folded c.now d.now) }
    ensures parity { count_ones result % 2 ≡ (dot (value a.now) (value b.now) + dot (value c.now) (value d.now)) % 2 }
{
    let n = a.len().min(b.len());
    if c.len().min(d.len()) != n {
        return fold_and(a, b) ^ fold_and(c, d);
    }
    let mut sum = 0;
    for i in 0..n {
        sum ^= (a[i] & b[i]) ^ (c[i] & d[i]);
    }
    sum
}

// Whether a word has an odd number of ones.
pub fn parity(word: u64) -> bool
    ensures { result ≡ (count_ones word % 2 == 1) }
{
    word.count_ones() % 2 == 1
}

// Whether the number of common ones is odd. They are folded, and counted once.
pub fn parity_and(a: &[u64], b: &[u64]) -> bool
    ensures { result ≡ odd a.now b.now }
{
    parity(fold_and(a, b))
}

// The number of common ones, modulo 2^32: of an X part and a Z part, the number of Y columns. It is counted word by word: letter power and MaxNTO's phases take it
// modulo 4, and a fold would keep its parity alone.
pub fn and_count_ones(a: &[u64], b: &[u64]) -> u32
    ensures { result ≡ common (value a.now) (value b.now) % 2 ^ 32 }
{
    let mut count = 0u32;
    for i in 0..a.len().min(b.len()) {
        count = count.wrapping_add((a[i] & b[i]).count_ones());
    }
    count
}

// Makes the first n words zero, or all where there are fewer.
pub fn clear(s: &mut [u64], n: usize)
    ensures { s.new ≡ zeroed n s.old }
{
    let m = n.min(s.len());
    // `fill` was measured: a third more instructions on a row, since it writes the last word by itself
    for w in &mut s[..m] {
        *w = 0;
    }
}

// Copies the words of src over those of dst.
pub fn copy(dst: &mut [u64], src: &[u64])
    ensures { dst.new ≡ copied dst.old src.now }
{
    // a loop: with `copy_from_slice`, `majorana::check_rows` was measured to take 9 to 18% more instructions
    for i in 0..dst.len().min(src.len()) {
        dst[i] = src[i];
    }
}

// Whether two rows have the same words, and as many.
pub fn same(a: &[u64], b: &[u64]) -> bool
    ensures { result ≡ alike a.now b.now }
{
    a == b
}

// Whether a column at or above q is set.
pub fn stray(s: &[u64], q: usize) -> bool
    ensures { result ≡ strays s.now q }
{
    let w = q / 64;
    w < s.len() && (s[w] >> (q % 64) != 0 || s[w + 1..].iter().any(|above| *above != 0))
}

// Row `term` of a block of rows of `width` words; what of it lies past the end is left out.
pub fn get_term(x: &[u64], width: usize, term: usize) -> &[u64]
    ensures { result.now ≡ term_of width x.now term }
{
    // a quotient, which the compiler takes out of a loop over rows: with `checked_mul` such a loop was measured to take up
    // to 11% more instructions (`products::product`, when it took its rows by this)
    if width == 0 || x.len() / width < term {
        return &[];
    }
    let rest = &x[term * width..];
    rest.get(..width).unwrap_or(rest)
}

// The words `at` of the first `count` rows of a block of rows of `width` words, in one.
fn joined(x: &[u64], width: usize, count: usize, at: usize) -> u64
    requires { (at < width) × (count * width ≤ length x.now) }
    ensures { (s : ℕ) → nat_lt 0 (result / 2 ^ s) ≡ some_below count (λ k. ltb 0 (slice_index x.now (k * width + at) / 2 ^ s)) }
{
    let mut all = 0;
    for k in 0..count {
        all |= x[k * width + at];
    }
    all
}

// Whether one of the first `count` rows of a block of rows of `width` words has a column at or above q set, row by row.
fn stray_terms(x: &[u64], width: usize, count: usize, q: usize) -> bool
    ensures { result ≡ strays_in width x.now count q }
{
    let mut rest = x;
    for _ in 0..count {
        // cut off, and no row behind it has words
        if rest.len() < width {
            return stray(rest, q);
        }
        let (row, more) = rest.split_at(width);
        if stray(row, q) {
            return true;
        }
        rest = more;
    }
    false
}

// The same. Rows that end below column q have none, and are not looked at; of rows that end in its word that word alone is, in all rows at once.
pub fn stray_block(x: &[u64], width: usize, count: usize, q: usize) -> bool
    ensures { result ≡ strays_in width x.now count q }
{
    let at = q / 64;
    if width <= at {
        false
    } else if width == at + 1 {
        let whole = count.min(x.len() / width);
        joined(x, width, whole, at) >> (q % 64) != 0
    } else {
        stray_terms(x, width, count, q)
    }
}
