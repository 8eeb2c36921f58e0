#![tactic(auto)]

// Pictures of the reasons for answers.
ghost use Rattle.std.specs.Prelude.{ℕ, List, IfErr};
ghost use Rattle.faults.specs.Failure.{Failure};
ghost use Rattle.undone.specs.Decided.{Answer};
ghost use Rattle.rules.specs.Local.{the_rule};

pub mod canvas;
pub mod plaque;
mod prefixes;
mod round_trip;
mod sentence;
pub mod terminal;
pub mod two_rows;

use answers::answer::table_cells;
use answers::endless::{split_front, two_rows as told_rows};
use canvas::Canvas;
use faults::fault::Fault;
use prefixes::draw_prefixes;
use ring::RingRule;
use round_trip::{draw_one_way, draw_round_trip};
use rules::local::LocalRule;
use rules::sound::SoundRule;
use std::alloc::Global;
use twins::Lengths;
use two_rows::draw_two_rows;
use undone::Decided;

// Draws the reason for an answer, whose cells stand first in `out`. Only a failure stops it.
pub fn draw<C: Canvas>(
    heap: Global,
    canvas: &mut C,
    rule: SoundRule,
    decided: Decided,
    out: &[u32],
) -> Result<(), Fault>
    requires { (o : List ℕ) × Answer (the_rule rule.local) o out.now decided }
    ensures { IfErr result Failure }
{
    match decided {
        Decided::Undone(width, place) => {
            let table = table_cells(rule.local.kinds(), width, out);
            let back = LocalRule::new(rule.local.kinds(), width, table);
            let place = place as usize;
            draw_round_trip(heap, canvas, rule.local, RingRule { rule: back, place })
        }
        Decided::UndoneFull(_, _) => draw_one_way(heap, canvas, rule.local),
        Decided::Orphan(n) => {
            let (piece, _) = split_front(out, n);
            draw_prefixes(heap, canvas, rule, piece)
        }
        Decided::Twins(left, mid, right) => {
            let (first, second) = told_rows(Lengths { left, mid, right }, out);
            draw_two_rows(heap, canvas, rule.local, first, second)
        }
        // There is nothing to draw of what does not fit in `out`.
        _ => Ok(()),
    }
}
