// The numbers that the calls hand back, as an enum with a case for each refusal.
//
//   Refusal   why a call refused: a case for each number, 10 with its pair; `number` hands the number back
//   number    the number of what a call answered: 0 where it is done
//   outside   whether a number of modes, qubits or columns is one that 1 refuses
//   Lent      a lent slice by its length, and how much of it is needed; `any_short` is whether 2 refuses one of several

#![tactic(auto)]

ghost use Rattle.std.specs.Prelude.{◌≡◌};
ghost use Rattle.refusal.specs.Numbers.{paper, answered};
ghost use Rattle.refusal.specs.Table.{outside, short};
ghost use Rattle.refusal.specs.Slices.{lengths};

// A case's number is the one that stands above it.
#[derive(Clone, Copy, Debug, PartialEq, Eq)]
pub enum Refusal {
    // 1: modes 0 or above 256, qubits 0 or above 256, a flatpack qubit above 255, a product of more than 512 rows.
    Size,
    // 2: a lent slice is shorter than stated.
    Short,
    // 3: qubits fewer than nodes, or a flatpack qubit not below qubits.
    Qubits,
    // 4: with leaves, an unnamed child not above the largest qubit.
    Child,
    // 5: a node is its own child.
    SelfChild,
    // 6: a node gets a second parent.
    SecondParent,
    // 7: a qubit has two entries.
    SecondEntry,
    // 8: not all nodes hang from one root.
    Roots,
    // 9: with leaves, leaf m at or above 2n, used twice, or missing.
    Leaf,
    // 10: two rows commute; the first pair in row order.
    Commuting(usize, usize),
    // 11: rows dependent.
    Dependent,
    // 12: no vacuum solves the rule.
    NoVacuum,
    // 13: the vacuum breaks the rule.
    Vacuum,
    // 14: decoding doesn't end at the vacuum, or X parts differ, or d is odd.
    Undecodable,
    // 15: encoding meets an unmet condition.
    Unencodable,
    // 16: report input isn't well formed.
    Malformed,
    // 17: phase above 3, stray high bit, row number at or above 2n, map not a permutation, coefficient part not finite.
    Value,
    // 18: MaxNTO, n odd.
    OddModes,
}

impl Refusal {
    // The number in the table. It is no `From`: all pairs of 10 have one number, and a call says what it asks for.
    pub fn number(self) -> u8
        ensures { result ≡ (paper self).number }
    {
        match self {
            Refusal::Size => 1,
            Refusal::Short => 2,
            Refusal::Qubits => 3,
            Refusal::Child => 4,
            Refusal::SelfChild => 5,
            Refusal::SecondParent => 6,
            Refusal::SecondEntry => 7,
            Refusal::Roots => 8,
            Refusal::Leaf => 9,
            Refusal::Commuting(_, _) => 10,
            Refusal::Dependent => 11,
            Refusal::NoVacuum => 12,
            Refusal::Vacuum => 13,
            Refusal::Undecodable => 14,
            Refusal::Unencodable => 15,
            Refusal::Malformed => 16,
            Refusal::Value => 17,
            Refusal::OddModes => 18,
        }
    }
}

// 0 for what is done, whatever came of it, and else the number of the refusal.
pub fn number<T>(answer: &Result<T, Refusal>) -> u8
    ensures { result ≡ (answered answer.now).number }
{
    match answer {
        Ok(_) => 0,
        Err(why) => why.number(),
    }
}

// 0 or above 256.
pub fn outside(k: usize) -> bool
    ensures { result ≡ outside k }
{
    k == 0 || 256 < k
}

// A lent slice: how many of its elements are needed, and how many there are.
#[derive(Clone, Copy)]
pub struct Lent(pub usize, pub usize);

// Whether one of several slices is shorter than what is needed of it.
pub fn any_short(lent: &[Lent]) -> bool
    ensures { result ≡ short (lengths lent.now) }
{
    for Lent(need, have) in lent {
        if have < need {
            return true;
        }
    }
    false
}
