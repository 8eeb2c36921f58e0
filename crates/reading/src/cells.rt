// Cells in a word.
ghost use Rattle.std.specs.Prelude.{◌≡◌, MatchResult};
ghost use Rattle.text.specs.Parsed.{Reads, Refuses};

use faults::name::Name;
use faults::no_words::BadCells;
use std::alloc::Global;
use text::parse::parse_cells;

/// A kind is one digit.
pub const MOST_KINDS: u32 = 16;

/// The cells whose digits the word is.
pub fn read_cells(heap: Global, name: Name, kinds: u32, word: &str) -> Result<Vec<u32>, BadCells>
    ensures { MatchResult result
        (λ v. Reads kinds word.now v.items)
        (λ e. (e.name ≡ name) × (e.kinds ≡ kinds) × Refuses kinds word.now e.reason) }
{
    parse_cells(heap, kinds, word).map_err(|reason| BadCells {
        name,
        reason,
        kinds,
    })
}
