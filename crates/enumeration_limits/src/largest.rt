// 256 modes on 256 qubits: Jordan-Wigner, row k from column 256k of the block on.

ghost use Rattle.std.specs.Prelude.{◌*◌, ◌<◌, ◌≤◌, length};

use crate::write;
use enumeration::RowSet;
use std::io;

// The rows of mode i: X and Y in column i, Z in the columns before it.
fn set_mode(i: usize, x: &mut [u64], z: &mut [u64])
    requires { i < 256 }
{
    let a = 512 * i;
    let b = a + 256;
    dense_block::set_index(x, a + i, true);
    dense_block::set_index(x, b + i, true);
    for j in 0..i {
        dense_block::set_index(z, a + j, true);
        dense_block::set_index(z, b + j, true);
    }
    dense_block::set_index(z, b + i, true);
}

// The old number of row k in the reversed order.
fn old_row(k: usize) -> usize
    requires { k < 512 }
    ensures { result < 512 }
{
    510 - k / 2 * 2 + k % 2
}

// How many of the 512 rows of `new`, of w elements each, are those of `old` in reversed order.
fn moved<T: PartialEq>(w: usize, new: &[T], old: &[T]) -> usize
    requires { (w ≤ 4) × (512 * w ≤ length new.now) × (512 * w ≤ length old.now) }
{
    let mut count = 0;
    for k in 0..512 {
        let a = k * w;
        let b = old_row(k) * w;
        if new[a..a + w] == old[b..b + w] {
            count += 1;
        }
    }
    count
}

// How many words of s are v.
fn number_of(s: &[u64], v: u64) -> usize {
    s.iter().filter(|x| **x == v).count()
}

// One call. Writes how many rows moved, how many words are 5, as all were before, and how many words of the room are
// zero.
fn enumerate(rt: &impl Print, name: &str, set: RowSet, map: &[usize]) -> io::Result<()>
    requires { (2048 ≤ length set.x.now) × (2048 ≤ length set.z.now) × (512 ≤ length set.phases.now) }
{
    let mut ox = [5; 2049];
    let mut oz = [5; 2049];
    let mut ophases = [5; 513];
    let mut ovacuum = [5; 5];
    let mut room = [5; 4097];
    let answer = enumeration::apply_mode_enumeration(
        set,
        &[0; 4],
        map,
        &mut ox,
        &mut oz,
        &mut ophases,
        &mut ovacuum,
        &mut room,
    );
    print!(rt; "{name}: {}", refusal::number(&answer))?;
    let rows = [
        moved(4, &ox, set.x),
        moved(4, &oz, set.z),
        moved(1, &ophases, set.phases),
    ];
    write(rt, "rows moved", &rows)?;
    write(rt, "vacuum", &ovacuum)?;
    let kept = [number_of(&ox, 5), number_of(&oz, 5), number_of(&room, 5)];
    write(rt, "words as before", &kept)?;
    write(rt, "zero words of the room", &[number_of(&room, 0)])?;
    println!(rt;)
}

// Puts the modes in reversed order, with `last` in place of the 0 at the map's end.
pub fn run(rt: &impl Print, name: &str, last: usize) -> io::Result<()> {
    let mut x = [0; 2048];
    let mut z = [0; 2048];
    let mut phases = [0; 512];
    let mut map = [0; 256];
    for i in 0..256 {
        set_mode(i, &mut x, &mut z);
        map[i] = 255 - i;
    }
    map[255] = last;
    // phases i and i + 1 modulo 4 for mode i: d is 0
    for k in 0..512 {
        phases[k] = ((k / 2 + k % 2) % 4) as u8;
    }
    let set = RowSet {
        modes: 256,
        qubits: 256,
        x: &x,
        z: &z,
        phases: &phases,
    };
    enumerate(rt, name, set, &map)
}
