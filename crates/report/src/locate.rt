// Where in a text a refusal was found: the line that is no entry, or the line and slot for which its entries are
// refused.

ghost use Rattle.std.specs.Prelude.{◌≡◌};
ghost use Rattle.ternarytree.specs.Building.{placed};
ghost use Rattle.flatpack_text.specs.Moves.{finished};
ghost use Rattle.report.specs.Located.{spot_of};
ghost use Rattle.report.specs.Replies.{fault_at, located};

use crate::explain::Spot;
use flatpack_text::read::State;
use flatpack_text::{flatpack, read};
use trees::Flatpack;

// A line, counted from 1, and the slot of it that is at fault, if it is not the line itself.
#[derive(Clone, Copy, Debug, PartialEq, Eq)]
pub struct Site {
    pub line: usize,
    pub spot: Option<Spot>,
}

// The slot of a line: 0 is X, 1 is Y, 2 is Z.
fn spot_of(l: usize) -> Spot
    ensures { result ≡ spot_of l }
{
    match l {
        0 => Spot::X,
        1 => Spot::Y,
        _ => Spot::Z,
    }
}

// The first slot at fault of n entries, of which the table has the first 256.
fn fault_at(n: usize, table: &[usize]) -> Option<usize>
    ensures { placed result ≡ fault_at n table.now }
{
    let mut entries = [0usize; 1024];
    let mut filled = [false; 768];
    flatpack::plain_numbers(table, n, &mut entries);
    flatpack::filled_slots(table, n, &mut filled);
    let flat = Flatpack {
        modes: n,
        entries: &entries,
        filled: &filled,
    };
    ternarytree::find_fault(true, flat)
}

// Where a text is at fault, from the state after it and the table of its first 256 entries: the line that is no entry,
// or the first slot at fault if its entries are refused for it. None if they are refused for no slot.
pub fn locate(s: State, table: &[usize]) -> Option<Site>
    ensures { result ≡ located (finished s) table.now }
{
    match read::finish(s) {
        Ok(n) => {
            let k = fault_at(n, table)?;
            Some(Site {
                line: k / 3 + 1,
                spot: Some(spot_of(k % 3)),
            })
        }
        Err(fault) => Some(Site {
            line: fault.line,
            spot: None,
        }),
    }
}
