// Cells that are read from their digits.
ghost use Rattle.std.specs.Prelude.{◌≡◌, MatchOption, MatchResult};
ghost use Rattle.text.specs.declared.parse.NoCells.TheVariants.{Memory as no_memory};
ghost use Rattle.text.specs.Parsed.{DigitOf, NotDigit, Reads, Refuses};

use std::alloc::{AllocError, AllocFailed, Global};

// Why a text was not read as cells. A place is a byte's offset: all that stands before it is in order.
#[derive(Clone, Copy, Debug, PartialEq, Eq)]
pub enum NoCells {
    NoDigit { place: usize },
    NoKind { place: usize, kind: u32 },
    Memory,
}

// By hand: a contract says that it is `Memory`, and what `thiserror` derives has no contract.
impl From<AllocError> for NoCells {
    ghost from_gives = { λ _ r. r ≡ no_memory };

    fn from(_e: AllocError) -> NoCells {
        NoCells::Memory
    }
}

impl<T: Drop> From<AllocFailed<T>> for NoCells {
    ghost from_gives = { λ _ r. r ≡ no_memory };

    fn from(_e: AllocFailed<T>) -> NoCells {
        NoCells::Memory
    }
}

// The kind that a digit stands for. Capitals are no digits, so that cells have one text only.
pub fn digit(byte: u8) -> Option<u32>
    ensures { MatchOption result (NotDigit byte) (DigitOf byte) }
{
    match byte {
        b'0'..=b'9' => Some(u32::from(byte - b'0')),
        b'a'..=b'f' => Some(u32::from(byte - b'a') + 10),
        _ => None,
    }
}

// The cells whose digits the text is, each below `kinds`. An empty text has none.
pub fn parse_cells(heap: Global, kinds: u32, text: &str) -> Result<Vec<u32>, NoCells>
    ensures { MatchResult result (λ v. Reads kinds text.now v.items) (Refuses kinds text.now) }
{
    let mut cells = Vec::with_capacity(heap, text.len())?;
    // A `for`: a chain that is collected into a `Result` says less of where it stops.
    for (place, &byte) in text.as_bytes().iter().enumerate() {
        let Some(kind) = digit(byte) else {
            return Err(NoCells::NoDigit { place });
        };
        if kind >= kinds {
            return Err(NoCells::NoKind { place, kind });
        }
        cells.push(kind)?;
    }
    Ok(cells)
}
