// Where in a row one kind stands.
ghost use Rattle.std.specs.Prelude.{◌≡◌, ◌≤◌, length, nat_eq, position};
ghost use Rattle.std.specs.List.{prefix_len};

use std::marker::Model;

// How many other cells stand before a run of the kind, since the run before it, and how long it is.
#[derive(Clone, Copy, PartialEq, Eq, Debug)]
pub struct Run {
    pub skipped: usize,
    pub length: usize,
}

// The runs of a kind in a row, from left to right. Contracts see the list of those that are left.
#[derive(Drop)]
pub struct Runs<'a> {
    kind: u32,
    rest: &'a [u32],
}

impl<'a> Model for Runs<'a> {
    ghost use Rattle.std.specs.Prelude.{List};
    ghost use Rattle.svg.specs.declared.runs.Run.{Run};
    ghost use Rattle.svg.specs.Runs.{runs};

    ghost Value = { List Run };

    ghost view = { λ w. runs w.kind w.rest.now };
}

impl<'a> Runs<'a> {
    ghost use Rattle.std.specs.Prelude.{map, nat_eq};
    ghost use Rattle.svg.specs.Runs.{Painted};

    pub fn new(kind: u32, cells: &'a [u32]) -> Runs<'a>
        ensures { Painted (map (λ c. nat_eq c kind) cells.now) result }
    {
        Runs { kind, rest: cells }
    }
}

impl Iterator for Runs<'_> {
    ghost use Rattle.std.specs.Iterator.{YieldsFirst, item_count};

    type Item = Run;

    ghost next_gives = { YieldsFirst (λ left. left) };

    ghost remaining = { item_count (λ left. left) };

    #[tactic(auto, using(crate::proofs::Painting::first_run, crate::proofs::Painting::no_run))]
    fn next(&mut self) -> Option<Run> {
        let skipped = cells_before(self.kind, self.rest)?;
        let here = &self.rest[skipped..];
        let length = cells_within(self.kind, here);
        self.rest = &here[length..];
        Some(Run { skipped, length })
    }
}

// How many cells stand before the first of the kind.
fn cells_before(kind: u32, cells: &[u32]) -> Option<usize>
    ensures { result ≡ position (λ c. nat_eq c kind) cells.now }
{
    cells.iter().position(|&cell| cell == kind)
}

// How many cells of the kind stand before the first other cell.
fn cells_within(kind: u32, cells: &[u32]) -> usize
    ensures count { result ≡ prefix_len (λ c. nat_eq c kind) cells.now }
    ensures inside { result ≤ length cells.now }
{
    cells.iter().take_while(|&&cell| cell == kind).count()
}
