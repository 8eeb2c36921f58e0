// What `decide` says of a rule beside the second opinion.
use crate::compared::Rule;
use crate::endless_rows::{Lengths, are_twins};
use crate::opinion::Opinion;
use crate::told::Told;
use std::alloc::{AllocError, Global};
use undone::Decided;

// Whether the opinion found the same, or did not look far enough and found nothing against it.
#[derive(Clone, Copy, PartialEq, Eq)]
pub enum Outcome {
    Agrees,
    NotFar,
    Disagrees,
}

// Compares an answer, and the cells that it tells, with the opinion of the rule. Where the told cells did not fit, none are told,
// so that a way back or an orphan that the opinion found is against it.
pub fn compare_answer(
    heap: Global,
    rule: &Rule,
    told: Told,
    opinion: &Opinion,
) -> Result<Outcome, AllocError> {
    match told.answer {
        Decided::Undone(width, place) => Ok(compare_way_back(width, place, told.cells, opinion)),
        Decided::UndoneFull(width, place) => Ok(compare_way_back(width, place, &[], opinion)),
        Decided::Orphan(length) => Ok(compare_orphan(length, told.cells, opinion)),
        Decided::OrphanFull(length) => Ok(compare_orphan(length, &[], opinion)),
        Decided::Twins(left, middle, right) => {
            let lengths = Lengths {
                left,
                middle,
                right,
            };
            let twins = are_twins(heap, rule, lengths, told.cells)?;
            Ok(compare_twins(twins, opinion))
        }
        Decided::TwinsFull | Decided::NoRule | Decided::Few => Ok(Outcome::Disagrees),
    }
}

fn compare_way_back(width: u32, place: u32, told: &[u32], opinion: &Opinion) -> Outcome {
    if opinion.orphan.is_some() || opinion.rounds.is_some() {
        return Outcome::Disagrees;
    }
    match &opinion.way_back {
        Some(way)
            if way.width == width && way.place == place && told.starts_with(way.table.as_slice()) =>
            { Outcome::Agrees }
        None if !opinion.tried_width(width) => Outcome::NotFar,
        _ => Outcome::Disagrees,
    }
}

fn compare_orphan(length: usize, told: &[u32], opinion: &Opinion) -> Outcome {
    if opinion.way_back.is_some() {
        return Outcome::Disagrees;
    }
    match &opinion.orphan {
        Some(orphan) if orphan.len() == length && told.starts_with(orphan.as_slice()) => {
            Outcome::Agrees
        }
        None if !opinion.tried_piece(length) => Outcome::NotFar,
        _ => Outcome::Disagrees,
    }
}

fn compare_twins(twins: bool, opinion: &Opinion) -> Outcome {
    if !twins || opinion.way_back.is_some() || opinion.orphan.is_some() {
        return Outcome::Disagrees;
    }
    match opinion.rounds {
        Some(_) => Outcome::Agrees,
        None => Outcome::NotFar,
    }
}
