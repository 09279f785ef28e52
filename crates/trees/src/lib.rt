// Ternary trees: what they are, what refuses them and what their rows are, in specs/; the theorems on them, in proofs/.
// There is no code here but what a slot of a tree holds, a flatpack as it is lent, and the names of trees. The code is
// `ternarytree`'s.

#![tactic(auto)]

// What a slot of a tree holds. Empty is one kind of five: an Option of the other four would say no more.
#[derive(Clone, Copy)]
pub enum Child {
    Empty,
    Node(usize),
    XLeaf(usize),
    YLeaf(usize),
    // With leaves: a number that is no entry's qubit and not above the largest.
    Low,
}

// A flatpack as it is lent, of any lengths. Entry i, of `modes`, is the numbers 4i (its qubit), 4i + 1, 4i + 2 and
// 4i + 3 (its X, Y and Z slots) of entries; a slot is empty if its place 3i, 3i + 1 or 3i + 2 of filled is false.
#[derive(Clone, Copy)]
pub struct Flatpack<'a> {
    pub modes: usize,
    pub entries: &'a [usize],
    pub filled: &'a [bool],
}

// The named trees.
#[derive(Clone, Copy)]
pub enum Named {
    JordanWigner,
    Parity,
    BravyiKitaev,
    Jkmn,
}
