// Answers as structs of numbers.

ghost use Rattle.std.specs.Prelude.{◌≡◌, ◌≤◌, ◌<◌, MatchOption};
ghost use Rattle.exports.specs.Behind.{answer_told, encoded_told, product_told, multiplied_told, real_told, named_by};

use pauli::{Coefficient, Marked, Meeting, Phase};
use refusal::Refusal;
use trees::Named;

// The number of an answer, and the pair of 10; 0 and 0 in every other answer.
#[repr(C)]
#[derive(Clone, Copy)]
pub struct RopethistleAnswer {
    pub number: usize,
    pub first: usize,
    pub second: usize,
}

impl From<Result<(), Refusal>> for RopethistleAnswer {
    ghost from_gives = { λ a r. r ≡ answer_told a };

    fn from(answer: Result<(), Refusal>) -> RopethistleAnswer {
        let number = usize::from(refusal::number(&answer));
        let (first, second) = match answer {
            Err(Refusal::Commuting(first, second)) => (first, second),
            _ => (0, 0),
        };
        RopethistleAnswer {
            number,
            first,
            second,
        }
    }
}

// The number of an answer, and the phase of a state; 0 unless it is done.
#[repr(C)]
#[derive(Clone, Copy)]
pub struct RopethistlePhase {
    pub number: usize,
    pub phase: usize,
}

impl From<Result<Phase, Refusal>> for RopethistlePhase {
    ghost from_gives = { λ a r. r ≡ encoded_told a };

    fn from(answer: Result<Phase, Refusal>) -> RopethistlePhase {
        match answer {
            Ok(phase) => RopethistlePhase {
                number: 0,
                phase: usize::from(phase.power),
            },
            Err(why) => RopethistlePhase {
                number: usize::from(why.number()),
                phase: 0,
            },
        }
    }
}

// The number of an answer, the phase of the product of two rows, and whether the rows commute (1 or 0); 0 and 0 unless
// it is done.
#[repr(C)]
#[derive(Clone, Copy)]
pub struct RopethistleMultiplied {
    pub number: usize,
    pub phase: usize,
    pub commute: usize,
}

impl From<Result<Meeting, Refusal>> for RopethistleMultiplied {
    ghost from_gives = { λ a r. r ≡ product_told a };

    fn from(answer: Result<Meeting, Refusal>) -> RopethistleMultiplied {
        match answer {
            Ok(met) => RopethistleMultiplied {
                number: 0,
                phase: usize::from(met.phase.power),
                commute: usize::from(met.commute),
            },
            Err(why) => RopethistleMultiplied {
                number: usize::from(why.number()),
                phase: 0,
                commute: 0,
            },
        }
    }
}

// The number of an answer, the phase of a product, and its coefficient; 0, 0 and 0 unless it is done.
#[repr(C)]
#[derive(Clone, Copy)]
pub struct RopethistleProduct {
    pub number: usize,
    pub phase: usize,
    pub re: f64,
    pub im: f64,
}

impl From<Result<(Phase, Coefficient), Refusal>> for RopethistleProduct {
    ghost from_gives = { λ a r. r ≡ multiplied_told a };

    fn from(answer: Result<(Phase, Coefficient), Refusal>) -> RopethistleProduct {
        match answer {
            Ok((phase, c)) => RopethistleProduct {
                number: 0,
                phase: usize::from(phase.power),
                re: c.re,
                im: c.im,
            },
            Err(why) => RopethistleProduct {
                number: usize::from(why.number()),
                phase: 0,
                re: 0.0,
                im: 0.0,
            },
        }
    }
}

// The same with one number, marked real (0) or imaginary (1); real 0 unless it is done.
#[repr(C)]
#[derive(Clone, Copy)]
pub struct RopethistleRealProduct {
    pub number: usize,
    pub phase: usize,
    pub imaginary: usize,
    pub value: f64,
}

impl From<Result<(Phase, Marked), Refusal>> for RopethistleRealProduct {
    ghost from_gives = { λ a r. r ≡ real_told a };

    fn from(answer: Result<(Phase, Marked), Refusal>) -> RopethistleRealProduct {
        let number = usize::from(refusal::number(&answer));
        let (phase, imaginary, value) = match answer {
            Ok((phase, Marked::Real(x))) => (phase.power, 0, x),
            Ok((phase, Marked::Imag(x))) => (phase.power, 1, x),
            Err(_) => (0, 0, 0.0),
        };
        RopethistleRealProduct {
            number,
            phase: usize::from(phase),
            imaginary,
            value,
        }
    }
}

// The tree of a number.
pub fn named(tree: usize) -> Option<Named>
    ensures { MatchOption result (3 < tree) (λ t. (tree ≤ 3) × (t ≡ named_by tree)) }
{
    match tree {
        0 => Some(Named::JordanWigner),
        1 => Some(Named::Parity),
        2 => Some(Named::BravyiKitaev),
        3 => Some(Named::Jkmn),
        _ => None,
    }
}
