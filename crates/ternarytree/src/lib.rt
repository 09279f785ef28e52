// Ternary trees: flatpacks, with leaves or naive, and the named trees, from numbers to rows, phases and vacuum.
//
//   from_flatpack         a flatpack whose numbers name nodes and leaves
//   from_flatpack_naive   a flatpack of nodes, with the leaves at the ends of Z chains
//   find_fault            the first slot of a flatpack that is at fault
//   from_name             Jordan-Wigner, parity, Bravyi-Kitaev or JKMN
//
// Trees, their rows and the theorems on them are in the crate `trees`, the tests of sizes and lengths in the crate
// `tree_sizes`.

#![tactic(auto)]

mod building; // building.rt: from tables to rows, and from flatpacks and names to tables
mod chains; // chains.rt: naive trees, the slots of the leaves
mod climbing; // climbing.rt: climbs to the root, and the tests of a whole tree
mod entries; // entries.rt: the entries of a flatpack that can be read
mod planting; // planting.rt: the named trees, into tables
mod reading; // reading.rt: the entries and slots of a flatpack, into tables
mod tables; // tables.rt: the tables of a tree
mod writing; // writing.rt: rows from trees, into packed words

ghost use Rattle.std.specs.Prelude.{◌≡◌, true, false, ◌<◌, ◌≤◌, length};
ghost use Rattle.refusal.specs.Numbers.{bare, answered};
ghost use Rattle.dense_block.specs.Words.{zeroed};
ghost use Rattle.ternarytree.specs.Building.{given, FlatBuilt, placed, fault_place, asked, NamedBuilt};

use entries::Entries;
use refusal::Refusal;
use tables::Tables;
use tree_sizes::Lengths;
use trees::{Flatpack, Named};

// The lengths of the slices that are lent for writing.
fn lengths(x: &[u64], z: &[u64], phases: &[u8], vacuum: &[u64], room: &[u64]) -> Lengths
    ensures { result ≡ record {
      x = length x.now;
      z = length z.now;
      phases = length phases.now;
      vacuum = length vacuum.now;
      room = length room.now;
    } }
{
    Lengths {
        x: x.len(),
        z: z.len(),
        phases: phases.len(),
        vacuum: vacuum.len(),
        room: room.len(),
    }
}

// Builds a flatpack, with leaves or naive.
fn from_entries(
    leaves: bool,
    flat: Flatpack,
    qubits: usize,
    x: &mut [u64],
    z: &mut [u64],
    phases: &mut [u8],
    vacuum: &mut [u64],
    room: &mut [u64],
) -> Result<(), Refusal>
    ensures { let f = flat.entry in
        FlatBuilt (given leaves f.modes qubits f.entries.now f.filled.now x.old z.old phases.old vacuum.old room.old)
        result x.new z.new phases.new vacuum.new room.new }
{
    if tree_sizes::bad_size(flat, qubits) {
        return Err(Refusal::Size);
    }
    let w = dense_block::words_for(qubits);
    let out = lengths(x, z, phases, vacuum, room);
    if tree_sizes::flat_short(flat.modes, w, flat.entries.len(), flat.filled.len(), out) {
        return Err(Refusal::Short);
    }
    dense_block::clear(room, 4 * flat.modes * w);
    if tree_sizes::bad_qubits(flat, qubits) {
        return Err(Refusal::Qubits);
    }
    building::build_flat(Entries::of(leaves, flat), w, x, z, phases, vacuum)
}

// Builds a flatpack with leaves. Done: the X and Z parts are in the first 2·modes·w words of x and z, w being
// ceil(qubits / 64), the phases in the first 2·modes of phases, and the first w words of vacuum are zero. Refused: the
// outputs are as they were, but 13 leaves zeros over them. The first 4·modes·w words of room are zero after every call
// that got past 1 and 2. The outputs are separate, since of a struct of `&mut` slices each clause would speak of borrows.
pub fn from_flatpack(
    flat: Flatpack,
    qubits: usize,
    x: &mut [u64],
    z: &mut [u64],
    phases: &mut [u8],
    vacuum: &mut [u64],
    room: &mut [u64],
) -> Result<(), Refusal>
    ensures { let f = flat.entry in
        FlatBuilt (given true f.modes qubits f.entries.now f.filled.now x.old z.old phases.old vacuum.old room.old)
        result x.new z.new phases.new vacuum.new room.new }
{
    from_entries(true, flat, qubits, x, z, phases, vacuum, room)
}

// The same, naive: a number that is no entry's qubit is ignored, and the leaves are at the ends of Z chains.
pub fn from_flatpack_naive(
    flat: Flatpack,
    qubits: usize,
    x: &mut [u64],
    z: &mut [u64],
    phases: &mut [u8],
    vacuum: &mut [u64],
    room: &mut [u64],
) -> Result<(), Refusal>
    ensures { let f = flat.entry in
        FlatBuilt (given false f.modes qubits f.entries.now f.filled.now x.old z.old phases.old vacuum.old room.old)
        result x.new z.new phases.new vacuum.new room.new }
{
    from_entries(false, flat, qubits, x, z, phases, vacuum, room)
}

// The first slot of a flatpack that is at fault (4, 5, 6 or 9), with leaves or naive: slot 3i + l is the X, Y or Z slot of
// entry i, for l = 0, 1 or 2. None if no slot is, if a qubit has two entries, or if the slots cannot be read. It is not
// told the number of qubits, so a flatpack that building refuses by 3 can have such a slot.
pub fn find_fault(leaves: bool, flat: Flatpack) -> Option<usize>
    ensures { placed result ≡ fault_place leaves flat.entry.modes flat.entry.entries.now flat.entry.filled.now }
{
    if tree_sizes::unreadable(flat) {
        return None;
    }
    match reading::wire(
        Entries::of(leaves, flat),
        &mut Tables::of(flat.modes),
        &mut [None; 768],
    ) {
        Ok(()) => None,
        Err(fault) => fault.slot,
    }
}

// Builds a named tree. Its rows keep `modes` columns however many qubits are asked for, and the lengths count `modes` columns; else as from_flatpack.
pub fn from_name(
    tree: Named,
    modes: usize,
    qubits: usize,
    x: &mut [u64],
    z: &mut [u64],
    phases: &mut [u8],
    vacuum: &mut [u64],
    room: &mut [u64],
) -> Result<(), Refusal>
    ensures { NamedBuilt (asked tree modes qubits x.old z.old phases.old vacuum.old room.old)
        result x.new z.new phases.new vacuum.new room.new }
{
    if tree_sizes::either_outside(modes, qubits) {
        return Err(Refusal::Size);
    }
    let w = dense_block::words_for(modes);
    if tree_sizes::outputs_short(modes, w, lengths(x, z, phases, vacuum, room)) {
        return Err(Refusal::Short);
    }
    dense_block::clear(room, 4 * modes * w);
    if qubits < modes {
        return Err(Refusal::Qubits);
    }
    building::build_named(tree, modes, w, x, z, phases, vacuum)
}
