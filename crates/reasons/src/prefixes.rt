// The blocks that preimages of each prefix of an orphan can end with, from all of them down to none.
ghost use Rattle.std.specs.Prelude.{◌≡◌, ◌^◌, ◌<◌, length, IfErr};
ghost use Rattle.faults.specs.Failure.{Failure};
ghost use Rattle.rules.specs.Local.{the_rule};
ghost use Rattle.rules.specs.Rules.{Cells, Piece};

use crate::canvas::Canvas;
use faults::fault::Fault;
use orphans::automaton::SubsetSteps;
use orphans::sets::BlockSet;
use orphans::subsets::{Subsets, write_masks};
use rules::cells::Kind;
use rules::local::LocalRule;
use rules::sound::SoundRule;
use std::alloc::{AllocError, Global};

// A piece of more cells is cut: so many prefixes from its start on are drawn, and so many up to its end.
const MOST_LINES: usize = 24;

const FIRST_LINES: usize = 16;

const LAST_LINES: usize = 7;

pub fn draw_prefixes<C: Canvas>(
    heap: Global,
    canvas: &mut C,
    rule: SoundRule,
    piece: &[u32],
) -> Result<(), Fault>
    requires { Piece (the_rule rule.local) piece.now }
    ensures { IfErr result Failure }
{
    let windows = rule.local.blocks() * rule.local.kinds() as usize;
    let mut masks = vec![in heap; 0; windows]?;
    write_masks(rule.local, masks.as_mut_slice(), 0);
    let subsets = Subsets::new(rule.local, masks.as_slice());
    draw_blocks(heap, canvas, rule.local)?;
    draw_sets(heap, canvas, subsets, piece)
}

// The blocks side by side, the cells of each written downwards.
fn draw_blocks<C: Canvas>(heap: Global, canvas: &mut C, rule: LocalRule) -> Result<(), Fault>
    ensures { IfErr result Failure }
{
    canvas.words("Blocks, written downwards, that a preimage of the first cells can end with:")?;
    for place in (0..rule.wide() - 1).rev() {
        let digits = block_digits(heap, rule, place)?;
        let label = if place == 0 { "cells  last" } else { "" };
        canvas.digits(label, digits.as_slice())?;
    }
    Ok(())
}

// Of each block the cell that stands so many places before its last.
fn block_digits(heap: Global, rule: LocalRule, place: u32) -> Result<Vec<usize>, AllocError> {
    let kinds = rule.kinds() as usize;
    let weight = kinds.saturating_pow(place);
    (0..rule.blocks())
        .map(|block| block.checked_div(weight).unwrap_or(0) % kinds)
        .collect(heap)
}

// A line for each prefix: how many cells it has, the last of them, and the set of blocks.
fn draw_sets<C: Canvas>(
    heap: Global,
    canvas: &mut C,
    subsets: Subsets,
    piece: &[u32],
) -> Result<(), Fault>
    requires { Cells subsets.rule.kinds piece.now }
    ensures { IfErr result Failure }
{
    let mut set = subsets.start();
    let blocks = members(heap, subsets.blocks(), set)?;
    canvas.set(0, None, blocks.as_slice(), "")?;
    for (place, &cell) in piece.iter().enumerate() {
        set = subsets.step(set, Kind(cell));
        let blocks = members(heap, subsets.blocks(), set)?;
        draw_set(
            heap,
            canvas,
            piece.len(),
            place + 1,
            cell,
            blocks.as_slice(),
        )?;
    }
    Ok(())
}

// The line of a prefix of so many of all cells, or the note where lines are left out.
fn draw_set<C: Canvas>(
    heap: Global,
    canvas: &mut C,
    all: usize,
    cells: usize,
    last: u32,
    members: &[bool],
) -> Result<(), Fault>
    ensures { IfErr result Failure }
{
    let left = all.saturating_sub(cells);
    if all > MOST_LINES && cells > FIRST_LINES && left >= LAST_LINES {
        if left == LAST_LINES {
            let more = cells - FIRST_LINES;
            let note = format!(in heap; "  ... and {more} more")?;
            canvas.words(note.as_str())?;
        }
        return Ok(());
    }
    let note = if left == 0 {
        "nothing leads to the piece"
    } else {
        ""
    };
    canvas.set(cells, Some(last), members, note)
}

fn members(heap: Global, blocks: usize, set: BlockSet) -> Result<Vec<bool>, AllocError>
    requires { blocks < 32 }
{
    (0..blocks).map(|block| set.has(block)).collect(heap)
}
