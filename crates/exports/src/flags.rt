// Which slots of a flatpack are filled, from bytes that may hold anything.

ghost use Rattle.std.specs.Prelude.{◌≡◌, length};
ghost use Rattle.exports.specs.Flags.{flags};

// The flags of n entries, at most 256 of them: fewer than three an entry if there are fewer bytes.
// By index, since a proof knows nothing of what `iter_mut().zip(..)` wrote.
pub fn read<'a>(n: usize, bytes: &[u8], out: &'a mut [bool; 768]) -> &'a [bool]
    requires { length out.old ≡ 768 }
    ensures { result.now ≡ flags n bytes.now }
{
    let m = (3 * n.min(256)).min(bytes.len());
    for i in 0..m {
        out[i] = bytes[i] != 0;
    }
    &out[..m]
}
