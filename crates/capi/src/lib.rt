#![tactic(auto)]

// The library for C: answers as structs of numbers. `include/undone.h` declares what stands here.
ghost use Rattle.std.specs.Prelude.{◌≡◌, length};
ghost use Rattle.capi.specs.Numbers.{bare, numbers_of, bare_finite, finite_numbers_of, Stepped};
ghost use Rattle.finite.specs.declared.Finite.{Finite};
ghost use Rattle.finite.specs.Told.{FinitePost};
ghost use Rattle.undone.specs.declared.Decided.{Decided};
ghost use Rattle.undone.specs.Decided.{DecidedPost};

use finite::{Finite, find_twins};
use ring::{Held, RingRule};
use rules::local::LocalRule;
use undone::{Decided, decide};

// An answer by its number, with what belongs to it and 0 for the rest: C has no enum with values.
#[repr(C)]
#[derive(Clone, Copy, Default)]
pub struct Numbers {
    pub answer: u32,
    // Of a way back.
    pub width: u32,
    pub place: u32,
    // The cells of an orphan.
    pub orphan: usize,
    // The cells of the parts of two rows.
    pub left: usize,
    pub middle: usize,
    pub right: usize,
}

// Decides a rule, as `decide` does.
#[unsafe(no_mangle)]
pub extern "C" fn undone_decide(
    kinds: u32,
    wide: u32,
    table: &[u32],
    out: &mut [u32],
    work: &mut [u32],
) -> Numbers
    ensures { (d : Decided) × (result ≡ numbers_of d) × DecidedPost kinds wide table.now (length work.old) out.old out.new d }
{
    Numbers::from(decide(kinds, wide, table, out, work))
}

impl Numbers {
    // An answer with nothing that belongs to it.
    fn of(answer: u32) -> Numbers
        ensures { result ≡ bare answer }
    {
        Numbers {
            answer,
            ..Numbers::default()
        }
    }
}

impl From<Decided> for Numbers {
    ghost from_gives = { λ d r. r ≡ numbers_of d };

    fn from(decided: Decided) -> Numbers {
        match decided {
            Decided::NoRule => Numbers::of(0),
            Decided::Undone(width, place) => Numbers {
                width,
                place,
                ..Numbers::of(1)
            },
            Decided::Orphan(orphan) => Numbers {
                orphan,
                ..Numbers::of(2)
            },
            Decided::Twins(left, middle, right) => Numbers {
                left,
                middle,
                right,
                ..Numbers::of(3)
            },
            Decided::UndoneFull(width, place) => Numbers {
                width,
                place,
                ..Numbers::of(4)
            },
            Decided::OrphanFull(orphan) => Numbers {
                orphan,
                ..Numbers::of(5)
            },
            Decided::TwinsFull => Numbers::of(6),
            Decided::Few => Numbers::of(7),
        }
    }
}

// What is told of rows that differ at finitely many places, by its number, with what belongs to it and 0 for the rest.
#[repr(C)]
#[derive(Clone, Copy, Default)]
pub struct FiniteNumbers {
    pub answer: u32,
    // The cells of the parts of two rows.
    pub left: usize,
    pub middle: usize,
    pub right: usize,
    // The cells that two rows want, where fewer are lent.
    pub wanted: usize,
}

// Finds two rows that differ at finitely many places and have one next row, as `find_twins` does.
#[unsafe(no_mangle)]
pub extern "C" fn undone_finite(
    kinds: u32,
    wide: u32,
    table: &[u32],
    out: &mut [u32],
    work: &mut [u32],
) -> FiniteNumbers
    ensures { (d : Finite) × (result ≡ finite_numbers_of d) × FinitePost kinds wide table.now (length work.old) out.old out.new d }
{
    FiniteNumbers::from(find_twins(kinds, wide, table, out, work))
}

impl FiniteNumbers {
    // An answer with nothing that belongs to it.
    fn of(answer: u32) -> FiniteNumbers
        ensures { result ≡ bare_finite answer }
    {
        FiniteNumbers {
            answer,
            ..FiniteNumbers::default()
        }
    }
}

impl From<Finite> for FiniteNumbers {
    ghost from_gives = { λ d r. r ≡ finite_numbers_of d };

    fn from(finite: Finite) -> FiniteNumbers {
        match finite {
            Finite::NoRule => FiniteNumbers::of(0),
            Finite::Twins(left, middle, right) => FiniteNumbers {
                left,
                middle,
                right,
                ..FiniteNumbers::of(1)
            },
            Finite::NoTwins => FiniteNumbers::of(2),
            Finite::Full(wanted) => FiniteNumbers {
                wanted,
                ..FiniteNumbers::of(3)
            },
            Finite::Few => FiniteNumbers::of(4),
        }
    }
}

// Where a row stands after some seconds, or why it was not run, as numbers for C.
const IN_ROW: u32 = 0;

const IN_SPARE: u32 = 1;

const NO_RULE: u32 = 2;

const NO_RING: u32 = 3;

// Runs a rule, at place 0, or a way back, at its place, for so many seconds on a ring, as `steps` does.
#[unsafe(no_mangle)]
pub extern "C" fn undone_steps(
    kinds: u32,
    wide: u32,
    table: &[u32],
    place: usize,
    seconds: u64,
    row: &mut [u32],
    spare: &mut [u32],
) -> u32
    ensures { Stepped kinds wide table.now place seconds row.old spare.old row.new spare.new result }
{
    let Ok(rule) = LocalRule::try_new(kinds, wide, table) else {
        return NO_RULE;
    };
    let ring = RingRule { rule, place };
    match ring.steps(seconds, row, spare) {
        Ok(Held::Row) => IN_ROW,
        Ok(Held::Spare) => IN_SPARE,
        Err(_) => NO_RING,
    }
}
