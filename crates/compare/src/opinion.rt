// The second opinion of a rule: what is found by going through all pieces and all rows on rings, up to small lengths.
ghost use Rattle.std.specs.Prelude.{◌≤◌, Decides};

use crate::compared::Rule;
use crate::digits::Cells;
use crate::nexts::{Pieces, Room};
use crate::orphan::find_orphan;
use crate::rounds::{Rounds, find_rounds};
use crate::ways::{WayBack, find_way_back};
use std::alloc::{AllocError, Global};
use std::fmt;

const WIDEST_WAY: u32 = 4;

const LONGEST_ROUND: u32 = 6;

const LONGEST_PIECE: u32 = 9;

// What was found of a rule, each the first of its kind, and up to which length of next rows it was looked for.
#[derive(Default, Drop)]
pub struct Opinion {
    pub way_back: Option<WayBack>,
    pub orphan: Option<Vec<u32>>,
    pub rounds: Option<Rounds>,
    pub reach: u32,
}

impl Opinion {
    // Whether ways back of a width were tried.
    pub fn tried_width(&self, width: u32) -> bool
        ensures { Decides result ((width ≤ self.now.reach) × (width ≤ 4)) }
    {
        width <= self.reach.min(WIDEST_WAY)
    }

    // Whether pieces of a length were tried.
    pub fn tried_piece(&self, length: usize) -> bool
        ensures { Decides result (length ≤ self.now.reach) }
    {
        length <= self.reach as usize
    }

    fn look(&mut self, heap: Global, pieces: Pieces) -> Result<(), AllocError> {
        let length = pieces.next_length;
        if self.orphan.is_none() {
            self.orphan = find_orphan(heap, pieces)?;
        }
        if self.way_back.is_none() && length <= WIDEST_WAY {
            self.way_back = find_way_back(heap, pieces)?;
        }
        if self.rounds.is_none() && length <= LONGEST_ROUND {
            self.rounds = find_rounds(heap, pieces)?;
        }
        self.reach = length;
        Ok(())
    }
}

impl fmt::Display for Opinion {
    fn fmt<W: fmt::Write>(&self, f: &mut fmt::Formatter<W>) -> fmt::Result {
        write!(f, "up to {} cells", self.reach)?;
        if let Some(way) = &self.way_back {
            let table = Cells(way.table.as_slice());
            write!(f, ", undone {} {} {table}", way.width, way.place)?;
        }
        if let Some(orphan) = &self.orphan {
            write!(f, ", orphan {}", Cells(orphan.as_slice()))?;
        }
        if let Some(rounds) = &self.rounds {
            let one = Cells(rounds.one.as_slice());
            let other = Cells(rounds.other.as_slice());
            write!(f, ", rounds {one} and {other}")?;
        }
        Ok(())
    }
}

// Looks at longer and longer next rows; once an orphan is known, no further than there are rows by rounds.
pub fn form_opinion(heap: Global, rule: &Rule, room: &mut Room) -> Result<Opinion, AllocError> {
    let mut opinion = Opinion::default();
    room.begin(rule);
    for length in 1..=LONGEST_PIECE {
        if opinion.orphan.is_some() && length > LONGEST_ROUND {
            break;
        }
        let Some(pieces) = room.lengthen(rule, length) else {
            break;
        };
        opinion.look(heap, pieces)?;
    }
    Ok(opinion)
}
