// Pieces of a line: numbers and words, each with the byte that ends it, from a place of a buffer on. The place is a
// number and the buffer a slice: a cursor that holds the slice would make each contract speak of a borrow. Digits by
// hand: std has no `fmt::Write` or `io::Write` over a lent slice.

ghost use Rattle.std.specs.Prelude.{◌≡◌, [], ◌∷◌, ◌++◌, ◌+◌, ◌<◌, length};
ghost use Rattle.std.proofs.lemmas.List.Edits.{sets};
ghost use Rattle.report.specs.Report.{digits_of};

// How many decimal digits a number has.
pub fn digits(n: usize) -> usize
    ensures { result ≡ length (digits_of n) }
{
    if n < 10 { 1 } else { digits(n / 10) + 1 }
}

// The digits of a number at a place of the buffer; the place after them.
pub fn put_digits(out: &mut [u8], at: usize, n: usize) -> usize
    requires { at + length (digits_of n) < length out.old }
    ensures place { result ≡ at + length (digits_of n) }
    ensures bytes { out.new ≡ sets out.old at (digits_of n) }
{
    if n < 10 {
        out[at] = b'0' + (n as u8);
        return at + 1;
    }
    let e = put_digits(out, at, n / 10);
    out[e] = b'0' + ((n % 10) as u8);
    e + 1
}

// A number and the byte that ends it.
pub fn put_number(out: &mut [u8], at: usize, n: usize, end: u8) -> usize
    requires { at + length (digits_of n) < length out.old }
    ensures place { result ≡ at + length (digits_of n ++ (end ∷ [])) }
    ensures bytes { out.new ≡ sets out.old at (digits_of n ++ (end ∷ [])) }
{
    let e = put_digits(out, at, n);
    out[e] = end;
    e + 1
}

// A word and the byte that ends it.
pub fn put_word(out: &mut [u8], at: usize, word: &[u8], end: u8) -> usize
    requires { at + length word.now < length out.old }
    ensures place { result ≡ at + length (word.now ++ (end ∷ [])) }
    ensures bytes { out.new ≡ sets out.old at (word.now ++ (end ∷ [])) }
{
    for i in 0..word.len() {
        out[at + i] = word[i];
    }
    let last = at + word.len();
    out[last] = end;
    last + 1
}
