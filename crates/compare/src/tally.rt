// How often each answer agreed with the second opinion.
use crate::agreement::Outcome;
use std::fmt;
use undone::Decided;

#[derive(Clone, Copy, Default)]
struct Count {
    agree: u32,
    not_far: u32,
    disagree: u32,
}

impl Count {
    fn add(&mut self, outcome: Outcome) {
        let count = match outcome {
            Outcome::Agrees => &mut self.agree,
            Outcome::NotFar => &mut self.not_far,
            Outcome::Disagrees => &mut self.disagree,
        };
        *count = count.saturating_add(1);
    }
}

impl fmt::Display for Count {
    fn fmt<W: fmt::Write>(&self, f: &mut fmt::Formatter<W>) -> fmt::Result {
        write!(
            f,
            "{:4} agree, {:4} not far enough, {:4} disagree",
            self.agree, self.not_far, self.disagree
        )
    }
}

// Counts by answer.
#[derive(Clone, Copy, Default)]
pub struct Tally {
    undone: Count,
    twins: Count,
    orphan: Count,
    refused: Count,
}

impl Tally {
    pub fn add(&mut self, answer: Decided, outcome: Outcome) {
        let count = match answer {
            Decided::Undone(_, _) | Decided::UndoneFull(_, _) => &mut self.undone,
            Decided::Twins(_, _, _) | Decided::TwinsFull => &mut self.twins,
            Decided::Orphan(_) | Decided::OrphanFull(_) => &mut self.orphan,
            Decided::NoRule | Decided::Few => &mut self.refused,
        };
        count.add(outcome);
    }

    pub fn disagreements(&self) -> u32 {
        [self.undone, self.twins, self.orphan, self.refused]
            .iter()
            .fold(0u32, |sum, count| sum.saturating_add(count.disagree))
    }
}

impl fmt::Display for Tally {
    fn fmt<W: fmt::Write>(&self, f: &mut fmt::Formatter<W>) -> fmt::Result {
        writeln!(f, "    undone  {}", self.undone)?;
        writeln!(f, "    twins   {}", self.twins)?;
        writeln!(f, "    orphan  {}", self.orphan)?;
        writeln!(f, "    refused {}", self.refused)
    }
}
