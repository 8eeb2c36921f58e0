// A rule that can be decided.
ghost use Rattle.std.specs.Prelude.{ℕ, ◌-◌, ◌^◌, ◌≤◌};

use crate::local::LocalRule;

// A rule that looks at two cells at least, and has at most 16 blocks of one cell less than a window.
#[derive(Clone, Copy)]
pub struct SoundRule<'a> {
    pub local: LocalRule<'a>,
    ghost wider: { 2 ≤ local.wide },
    ghost few: { local.kinds ^ (local.wide - 1) ≤ 16 },
}
