// Rules that the tests know the answers of.
ghost use Rattle.std.specs.Prelude.{◌<◌, ◌≤◌};

use std::array;

// The second of each two.
pub const SECOND: [u32; 4] = [0, 1, 0, 1];

// The sum of two.
pub const SUM: [u32; 4] = [0, 1, 1, 0];

// 1 only of two 1.
pub const BOTH: [u32; 4] = [0, 0, 0, 1];

// The sum of two, of three kinds.
pub const SUM_OF_THREE: [u32; 9] = [0, 1, 2, 1, 2, 0, 2, 0, 1];

// The second of four cells is turned exactly between 1 and 0 0.
pub const TURNED: [u32; 16] = [0, 0, 0, 0, 1, 1, 1, 1, 1, 0, 0, 0, 0, 1, 1, 1];

// Four kinds of two bits: the lower is turned where the next cell's upper is 1, which undoes itself.
pub const OWN_BACK: [u32; 16] = [0, 0, 1, 1, 1, 1, 0, 0, 2, 2, 3, 3, 3, 3, 2, 2];

// Sixteen kinds of two halves each: the lower half comes from the right neighbour.
pub fn halves() -> [u32; 256] {
    array::from_fn(|window| (window / 64 * 4 + window % 4) as u32)
}

// What undoes `halves`, of two cells at place 1: the lower half comes from the left neighbour.
pub fn halves_back() -> [u32; 256] {
    array::from_fn(|window| (window % 16 / 4 * 4 + window / 16 % 4) as u32)
}

// The sum of three cells, round the kinds.
pub fn sum_of_cells<const WINDOWS: usize>(kinds: usize) -> [u32; WINDOWS]
    requires some { 0 < kinds }
    requires few { kinds ≤ 16 }
{
    array::from_fn(|window| {
        let first = window / kinds / kinds % kinds;
        ((first + window / kinds % kinds + window % kinds) % kinds) as u32
    })
}

// Sixteen kinds in eight twos: a cell turns to the other of its two exactly if the next is the odd one of the two below.
// So whether it turned is known only from all cells of a chain, of eight at most.
pub fn chain() -> [u32; 256] {
    array::from_fn(|window| {
        let first = window / 16;
        let turned = window % 16 + 1 == first / 2 * 2;
        (first / 2 * 2 + (first + turned as usize) % 2) as u32
    })
}
