// The modes of a row set in another order: new mode i has the old rows of mode map[i].

ghost use Rattle.std.specs.Prelude.{◌≡◌, ◌++◌, ◌*◌, ◌≤◌, length, drop};
ghost use Rattle.enumeration.specs.Orders.{permutation, enumerated_blocks};
ghost use Rattle.enumeration.specs.Lent.{Maps};

// Whether the first numbers of the map, one for each mode, are a permutation.
pub fn is_permutation(modes: usize, map: &[usize]) -> bool
    requires { (modes ≤ 256) × (modes ≤ length map.now) }
    ensures { result ≡ permutation modes map.now }
{
    let mut met = [false; 256];
    for &k in &map[..modes] {
        if modes <= k || met[k] {
            return false;
        }
        met[k] = true;
    }
    true
}

// A block put over another of its length, by a loop: `copy_from_slice` calls memmove here, and the archive for C needs
// memcpy and memset alone.
pub fn put<T: Copy>(out: &mut [T], block: &[T])
    requires { length block.now ≡ length out.old }
    ensures { out.new ≡ block.now }
{
    for j in 0..block.len() {
        out[j] = block[j];
    }
}

// What each mode has in x, `size` elements, in the new order: the words of the rows of a mode, or their phases.
pub fn enumerate_blocks<T: Copy>(modes: usize, size: usize, map: &[usize], x: &[T], out: &mut [T])
    requires { Maps modes map.now × (modes * size ≤ length x.now) × (modes * size ≤ length out.old) }
    ensures { out.new ≡ enumerated_blocks size modes map.now x.now ++ drop (modes * size) out.old }
{
    for i in 0..modes {
        let from = map[i] * size;
        let to = i * size;
        put(&mut out[to..to + size], &x[from..from + size]);
    }
}
