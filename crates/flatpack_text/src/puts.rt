// Stores that change nothing past the end of a slice.

ghost use Rattle.std.specs.Prelude.{◌≡◌, set};

// One number or flag of a table. By index: of a slice that is written through `get_mut` a proof knows the length alone.
pub fn put<T: Copy>(table: &mut [T], i: usize, v: T)
    ensures { table.new ≡ set table.old i v }
{
    if i < table.len() {
        table[i] = v;
    }
}
