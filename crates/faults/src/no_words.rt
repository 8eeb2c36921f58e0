// Why words are no rule.
ghost use Rattle.std.specs.Prelude.{◌≡◌, ◌≢◌, ◌⊎◌};
ghost use Rattle.faults.specs.declared.no_words.NoWords.TheVariants.{Cells as no_cells, Memory as no_memory};
ghost use Rattle.text.specs.declared.parse.NoCells.TheVariants.{Memory as no_room};

use crate::name::Name;
use rules::rule::NoRule;
use std::alloc::{AllocError, AllocFailed};
use text::parse::NoCells;

/// Why words are no rule, with what was found of them.
#[derive(Debug, Drop)]
pub enum NoWords {
    /// Neither KINDS WIDTH TABLE nor wolfram and a number, but these words.
    Few(String),
    /// Behind the rule stands this word.
    Extra(String),
    /// A part of the rule that should be a number.
    NoNumber(Name, String),
    /// Behind `wolfram` stands no number from 0 to 255.
    NoElementary(String),
    /// Behind `wolfram KINDS WIDTH` stands no number in decimal.
    NoNumeral(String),
    /// The number has more digits than there are windows.
    LargeNumber { kinds: u32, wide: u32 },
    Cells(BadCells),
    Table(BadTable),
    Memory,
}

// By hand: a contract says that it is `Memory`, and what `thiserror` derives has no contract.
impl From<AllocError> for NoWords {
    ghost from_gives = { λ _ r. r ≡ no_memory };

    fn from(_e: AllocError) -> NoWords {
        NoWords::Memory
    }
}

impl<T: Drop> From<AllocFailed<T>> for NoWords {
    ghost from_gives = { λ _ r. r ≡ no_memory };

    fn from(_e: AllocFailed<T>) -> NoWords {
        NoWords::Memory
    }
}

// Want of memory is one thing, wherever it was wanted.
impl From<BadCells> for NoWords {
    ghost from_gives = { λ e r. ((e.reason ≡ no_room) × (r ≡ no_memory)) ⊎ ((e.reason ≢ no_room) × (r ≡ no_cells e)) };

    fn from(e: BadCells) -> NoWords {
        if e.reason == NoCells::Memory {
            return NoWords::Memory;
        }
        NoWords::Cells(e)
    }
}

/// Why a word is not read as cells, what the word is for, and how many kinds there are.
#[derive(Clone, Copy, Debug)]
pub struct BadCells {
    pub name: Name,
    pub reason: NoCells,
    pub kinds: u32,
}

/// Why a table is no rule or no way back, and the numbers that it was given with.
#[derive(Clone, Copy, Debug)]
pub struct BadTable {
    pub reason: NoRule,
    pub kinds: u32,
    pub wide: u32,
}
