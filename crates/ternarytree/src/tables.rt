// The tables of a tree.

ghost use Rattle.std.specs.Prelude.{◌<◌, ◌≤◌};

// Here and in the other tables slots, nodes and entries are u16: an Option of it is 4 bytes, one of usize 16, and the
// tables are cleared in each call (256 places: 113 instructions, not 4150).
//
// Of n nodes: the slot that holds each, and the slot of each row's leaf. The columns of the nodes and the nodes in the
// slots are tables apart: in the struct the columns would be cleared for find_fault too (both in the struct, when the
// tables were of usize: slower by a tenth at 128 modes and by a quarter at 8).
#[derive(Drop)]
pub struct Tables {
    pub parents: [Option<u16>; 256],
    // Between the two, so that each is cleared by itself: one clearing of both costs 2,870 instructions more a call.
    pub n: usize,
    pub slots: [Option<u16>; 512],
    ghost some: { (0 < n) × (n ≤ 256) },
}

impl Tables {
    ghost use Rattle.ternarytree.specs.Reading.{Fresh};

    // With nothing in them yet.
    pub fn of(n: usize) -> Tables
        requires { (0 < n) × (n ≤ 256) }
        ensures { Fresh n result }
    {
        Tables {
            parents: [None; 256],
            n,
            slots: [None; 512],
        }
    }
}
