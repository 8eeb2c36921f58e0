// Rows of cells at random, the same for the same seed.
ghost use Rattle.std.specs.Prelude.{◌≡◌, ℕ, ◌<◌, IfOk};
ghost use Rattle.rows.specs.Random.{advanced, drawn_from, drawn_cells};

use std::alloc::{AllocError, Global};

// A linear congruential generator, by its state.
#[derive(Drop)]
pub struct Random(u64);

impl Random {
    pub fn new(seed: u64) -> Random
        ensures { result.0 ≡ seed }
    {
        Random(seed)
    }

    // The next number below `bound`, from the high bits of the state, which are the better ones.
    pub fn below(&mut self, bound: u32) -> u32
        requires { 0 < bound }
        ensures value { result ≡ drawn_from (advanced self.old.0) bound }
        ensures after { self.new.0 ≡ advanced self.old.0 }
    {
        self.0 = self
            .0
            .wrapping_mul(6364136223846793005)
            .wrapping_add(1442695040888963407);
        ((self.0 >> 33) % u64::from(bound)) as u32
    }
}

// So many cells of so many kinds.
#[tactic(auto, using(crate::proofs::Draws::drawn_more, crate::proofs::Draws::drawn_all))]
pub fn random_cells(
    heap: Global,
    kinds: u32,
    cells: usize,
    seed: u64,
) -> Result<Vec<u32>, AllocError>
    requires { 0 < kinds }
    ensures { IfOk result (λ v. v.items ≡ drawn_cells kinds cells seed) }
{
    let mut random = Random::new(seed);
    let mut row = Vec::with_capacity(heap, cells)?;
    // A `for`: of what a closure draws that changes its state a proof would know nothing.
    for _i in 0..cells {
        row.push(random.below(kinds))?;
    }
    Ok(row)
}
