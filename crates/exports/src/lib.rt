// The calls for programs in C and Rust: `include/ropethistle.h` and `include/ropethistle.rs` declare them.
//
// Each exported function hands its arguments to the call behind it and the numbers of its answer back, and promises what
// that call promises. The C interface keeps each parameter apart, a slice as a pointer and then a length, and the two
// calls on flatpacks two.

#![tactic(auto)]

mod flags; // flags.rt: which slots of a flatpack are filled, from bytes
mod told; // told.rt: answers as structs of numbers

ghost use Rattle.std.specs.Prelude.{◌≡◌, true, false};
ghost use Rattle.pauli.specs.Product as pauli;
ghost use Rattle.majorana.specs.Sets.{given};
ghost use Rattle.majorana.specs.Checks.{vacuum_checked, RowsChecked};
ghost use Rattle.majorana.specs.Vacuums.{Solves, Makes};
ghost use Rattle.majorana.specs.Codes.{Encodes, Decodes};
ghost use Rattle.products.specs.Products.{Multiplies, RealMultiplies};
ghost use Rattle.enumeration.specs.Enumerations.{outs, Enumerated};
ghost use Rattle.maxnto.specs.Call as maxnto;
ghost use Rattle.ternarytree.specs.Building as trees;
ghost use Rattle.refusal.specs.Numbers.{answered};
ghost use Rattle.exports.specs.Flags.{flags};
ghost use Rattle.exports.specs.Behind.{Tells, answer_told, encoded_told, product_told, multiplied_told, real_told, slices, NumberBuilt};

use majorana::RowSet;
use pauli::{Coefficient, Phase, Row};
use refusal::Refusal;
use told::{
    RopethistleAnswer, RopethistleMultiplied, RopethistlePhase, RopethistleProduct,
    RopethistleRealProduct,
};
use trees::Flatpack;

// majorana::check_vacuum
#[unsafe(no_mangle)]
pub extern "C" fn ropethistle_check_vacuum(
    modes: usize,
    qubits: usize,
    x: &[u64],
    z: &[u64],
    phases: &[u8],
    vacuum: &[u64],
) -> RopethistleAnswer
    ensures { Tells answer_told (λ a. answered a ≡ vacuum_checked (given modes qubits x.now z.now phases.now) vacuum.now) result }
{
    let set = RowSet {
        modes,
        qubits,
        x,
        z,
        phases,
    };
    majorana::check_vacuum(set, vacuum).into()
}

// majorana::check_rows
#[unsafe(no_mangle)]
pub extern "C" fn ropethistle_check_rows(
    modes: usize,
    qubits: usize,
    x: &[u64],
    z: &[u64],
    phases: &[u8],
    vacuum: &[u64],
    room: &mut [u64],
) -> RopethistleAnswer
    ensures { Tells answer_told (λ a. RowsChecked (given modes qubits x.now z.now phases.now) vacuum.now room.old a room.new) result }
{
    let set = RowSet {
        modes,
        qubits,
        x,
        z,
        phases,
    };
    majorana::check_rows(set, vacuum, room).into()
}

// majorana::determine_vacuum_state
#[unsafe(no_mangle)]
pub extern "C" fn ropethistle_determine_vacuum_state(
    modes: usize,
    qubits: usize,
    x: &[u64],
    z: &[u64],
    phases: &[u8],
    vacuum: &mut [u64],
    room: &mut [u64],
) -> RopethistleAnswer
    ensures { Tells answer_told (λ a. Solves (given modes qubits x.now z.now phases.now) vacuum.old room.old a vacuum.new room.new) result }
{
    let set = RowSet {
        modes,
        qubits,
        x,
        z,
        phases,
    };
    majorana::determine_vacuum_state(set, vacuum, room).into()
}

// majorana::new
#[unsafe(no_mangle)]
pub extern "C" fn ropethistle_new(
    modes: usize,
    qubits: usize,
    x: &[u64],
    z: &[u64],
    phases: &[u8],
    vacuum: &mut [u64],
    room: &mut [u64],
) -> RopethistleAnswer
    ensures { Tells answer_told (λ a. Makes (given modes qubits x.now z.now phases.now) vacuum.old room.old a vacuum.new room.new) result }
{
    let set = RowSet {
        modes,
        qubits,
        x,
        z,
        phases,
    };
    majorana::new(set, vacuum, room).into()
}

// enumeration::apply_mode_enumeration
#[unsafe(no_mangle)]
pub extern "C" fn ropethistle_apply_mode_enumeration(
    modes: usize,
    qubits: usize,
    x: &[u64],
    z: &[u64],
    phases: &[u8],
    vacuum: &[u64],
    map: &[usize],
    ox: &mut [u64],
    oz: &mut [u64],
    ophases: &mut [u8],
    ovacuum: &mut [u64],
    room: &mut [u64],
) -> RopethistleAnswer
    ensures { Tells answer_told (λ a. Enumerated (given modes qubits x.now z.now phases.now) vacuum.now map.now (outs ox.old oz.old ophases.old ovacuum.old room.old) a (outs ox.new oz.new ophases.new ovacuum.new room.new)) result }
{
    let set = RowSet {
        modes,
        qubits,
        x,
        z,
        phases,
    };
    enumeration::apply_mode_enumeration(set, vacuum, map, ox, oz, ophases, ovacuum, room).into()
}

// majorana::try_encode
#[unsafe(no_mangle)]
pub extern "C" fn ropethistle_try_encode(
    modes: usize,
    qubits: usize,
    x: &[u64],
    z: &[u64],
    phases: &[u8],
    vacuum: &[u64],
    list: &[u64],
    out: &mut [u64],
) -> RopethistlePhase
    ensures { Tells encoded_told (λ a. Encodes (given modes qubits x.now z.now phases.now) vacuum.now list.now out.old a out.new) result }
{
    let set = RowSet {
        modes,
        qubits,
        x,
        z,
        phases,
    };
    majorana::try_encode(set, vacuum, list, out).into()
}

// majorana::decode_zbasis_state
#[unsafe(no_mangle)]
pub extern "C" fn ropethistle_decode_zbasis_state(
    modes: usize,
    qubits: usize,
    x: &[u64],
    z: &[u64],
    phases: &[u8],
    vacuum: &[u64],
    string: &[u64],
    out: &mut [u64],
) -> RopethistleAnswer
    ensures { Tells answer_told (λ a. Decodes (given modes qubits x.now z.now phases.now) vacuum.now string.now out.old a out.new) result }
{
    let set = RowSet {
        modes,
        qubits,
        x,
        z,
        phases,
    };
    majorana::decode_zbasis_state(set, vacuum, string, out).into()
}

// products::product
#[unsafe(no_mangle)]
pub extern "C" fn ropethistle_product(
    modes: usize,
    qubits: usize,
    x: &[u64],
    z: &[u64],
    phases: &[u8],
    numbers: &[usize],
    re: f64,
    im: f64,
    ox: &mut [u64],
    oz: &mut [u64],
) -> RopethistleProduct
    ensures { Tells multiplied_told (λ a. Multiplies (given modes qubits x.now z.now phases.now) numbers.now (record { re = re; im = im }) ox.old oz.old a ox.new oz.new) result }
{
    let set = RowSet {
        modes,
        qubits,
        x,
        z,
        phases,
    };
    products::product(set, numbers, Coefficient { re, im }, ox, oz).into()
}

// products::product_real
#[unsafe(no_mangle)]
pub extern "C" fn ropethistle_product_real(
    modes: usize,
    qubits: usize,
    x: &[u64],
    z: &[u64],
    phases: &[u8],
    numbers: &[usize],
    c: f64,
    ox: &mut [u64],
    oz: &mut [u64],
) -> RopethistleRealProduct
    ensures { Tells real_told (λ a. RealMultiplies (given modes qubits x.now z.now phases.now) numbers.now c ox.old oz.old a ox.new oz.new) result }
{
    let set = RowSet {
        modes,
        qubits,
        x,
        z,
        phases,
    };
    products::product_real(set, numbers, c, ox, oz).into()
}

// pauli::multiply
#[unsafe(no_mangle)]
pub extern "C" fn ropethistle_multiply(
    columns: usize,
    left: u8,
    lx: &[u64],
    lz: &[u64],
    right: u8,
    rx: &[u64],
    rz: &[u64],
    ox: &mut [u64],
    oz: &mut [u64],
) -> RopethistleMultiplied
    ensures { Tells product_told (λ a. pauli.Multiplied (pauli.given columns (pauli.lent_row left lx.now lz.now) (pauli.lent_row right rx.now rz.now) ox.old oz.old) a ox.new oz.new) result }
{
    let left = Row {
        phase: Phase { power: left },
        x: lx,
        z: lz,
    };
    let right = Row {
        phase: Phase { power: right },
        x: rx,
        z: rz,
    };
    pauli::multiply(columns, left, right, ox, oz).into()
}

// ternarytree::from_flatpack, a slot being filled unless its byte is 0.
#[unsafe(no_mangle)]
pub extern "C" fn ropethistle_from_flatpack(
    modes: usize,
    qubits: usize,
    entries: &[usize],
    filled: &[u8],
    x: &mut [u64],
    z: &mut [u64],
    phases: &mut [u8],
    vacuum: &mut [u64],
    room: &mut [u64],
) -> RopethistleAnswer
    ensures { Tells answer_told (λ a. trees.FlatBuilt (trees.given true modes qubits entries.now (flags modes filled.now) x.old z.old phases.old vacuum.old room.old) a x.new z.new phases.new vacuum.new room.new) result }
{
    let mut set = [false; 768];
    let flat = Flatpack {
        modes,
        entries,
        filled: flags::read(modes, filled, &mut set),
    };
    ternarytree::from_flatpack(flat, qubits, x, z, phases, vacuum, room).into()
}

// ternarytree::from_flatpack_naive, likewise.
#[unsafe(no_mangle)]
pub extern "C" fn ropethistle_from_flatpack_naive(
    modes: usize,
    qubits: usize,
    entries: &[usize],
    filled: &[u8],
    x: &mut [u64],
    z: &mut [u64],
    phases: &mut [u8],
    vacuum: &mut [u64],
    room: &mut [u64],
) -> RopethistleAnswer
    ensures { Tells answer_told (λ a. trees.FlatBuilt (trees.given false modes qubits entries.now (flags modes filled.now) x.old z.old phases.old vacuum.old room.old) a x.new z.new phases.new vacuum.new room.new) result }
{
    let mut set = [false; 768];
    let flat = Flatpack {
        modes,
        entries,
        filled: flags::read(modes, filled, &mut set),
    };
    ternarytree::from_flatpack_naive(flat, qubits, x, z, phases, vacuum, room).into()
}

// ternarytree::from_name, the tree given by a number: 0 Jordan-Wigner, 1 parity, 2 Bravyi-Kitaev, 3 JKMN; another is
// refused by 1.
#[unsafe(no_mangle)]
pub extern "C" fn ropethistle_from_name(
    tree: usize,
    modes: usize,
    qubits: usize,
    x: &mut [u64],
    z: &mut [u64],
    phases: &mut [u8],
    vacuum: &mut [u64],
    room: &mut [u64],
) -> RopethistleAnswer
    ensures { Tells answer_told (λ a. NumberBuilt tree modes qubits (slices x.old z.old phases.old vacuum.old room.old) a (slices x.new z.new phases.new vacuum.new room.new)) result }
{
    let Some(named) = told::named(tree) else {
        return Err(Refusal::Size).into();
    };
    ternarytree::from_name(named, modes, qubits, x, z, phases, vacuum, room).into()
}

// maxnto::maxnto
#[unsafe(no_mangle)]
pub extern "C" fn ropethistle_maxnto(
    modes: usize,
    x: &mut [u64],
    z: &mut [u64],
    phases: &mut [u8],
) -> RopethistleAnswer
    ensures { Tells answer_told (λ a. maxnto.Built (maxnto.given modes x.old z.old phases.old) a x.new z.new phases.new) result }
{
    maxnto::maxnto(modes, x, z, phases).into()
}
