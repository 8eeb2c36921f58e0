// Cells that are written as digits, or drawn.
ghost use Rattle.std.specs.Prelude.{◌≡◌, ◌<◌, string_bytes};
ghost use Rattle.text.specs.declared.print.NoText.TheVariants.{Memory as no_memory};
ghost use Rattle.text.specs.Letters.{symbol, text_of};
ghost use Rattle.text.specs.Shown.{Adds};

use rules::cells::stray;
use std::alloc::AllocError;

// How many kinds have a digit, and a glyph.
const SYMBOLS: u32 = 16;

// Easy to tell apart where they stand close together; kind 0 is left blank.
const GLYPHS: [char; 16] = [
    ' ', '█', '░', '▒', '▓', '▀', '▄', '▌', '▐', '▖', '▗', '▘', '▝', '▚', '▞', '■',
];

// Why cells were not written or drawn. The place is that of the first cell past the 16 kinds.
#[derive(Clone, Copy, Debug, PartialEq, Eq)]
pub enum NoText {
    NoDigit { place: usize },
    Memory,
}

// By hand: a contract says that it is `Memory`, and what `thiserror` derives has no contract.
impl From<AllocError> for NoText {
    ghost from_gives = { λ _ r. r ≡ no_memory };

    fn from(_e: AllocError) -> NoText {
        NoText::Memory
    }
}

// The characters that stand for cells: digits, or block characters that make a picture. An option chooses one by name, which a
// closure has not.
#[derive(Clone, Copy, Debug, PartialEq, Eq)]
pub enum Alphabet {
    Digits,
    Glyphs,
}

impl Alphabet {
    fn char_of(self, cell: u32) -> char
        requires { cell < 16 }
        ensures { result ≡ symbol self cell }
    {
        match self {
            Alphabet::Digits => char::from_digit(cell, SYMBOLS).unwrap(),
            Alphabet::Glyphs => GLYPHS[cell as usize],
        }
    }
}

// Adds the cells to the line, a character for each. All are looked at before the first is added, so a refused one leaves
// the line as it was.
pub fn write_cells(line: &mut String, alphabet: Alphabet, cells: &[u32]) -> Result<(), NoText>
    ensures { Adds (text_of alphabet) cells.now (string_bytes line.old) (string_bytes line.new) result }
{
    if let Some(place) = stray(SYMBOLS, cells) {
        return Err(NoText::NoDigit { place });
    }
    for &cell in cells {
        line.push(alphabet.char_of(cell))?;
    }
    Ok(())
}
