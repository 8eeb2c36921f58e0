// Searches of small automata, each in the middle of lent words.
ghost use Rattle.std.specs.Prelude.{◌≡◌, ◌+◌, ◌%◌, ◌<◌, ◌&&◌, if◌then◌else◌, nat_eq, nat_lt};

use super::*;

// Eight states in a ring, where the symbol 0 leads one step on, and the symbol 1 another.
#[derive(Clone, Copy)]
struct Ring {
    short: u8,
    long: u8,
}

impl Automaton for Ring {
    ghost states = { λ _. 8 };

    ghost symbols = { λ _. 2 };

    ghost leads = { λ r s c. (s + (if nat_eq c 0 then r.short else r.long)) % 8 };

    ghost dead = { λ _ _. ⊥ };

    fn states(&self) -> u32 {
        8
    }

    fn symbols(&self) -> u32 {
        2
    }

    fn follow(&self, state: u32, symbol: u32) -> Option<u32> {
        let step = if symbol == 0 { self.short } else { self.long };
        Some((state + step as u32) % 8)
    }
}

// States up to 3, each of which one symbol leads from to the next, by turns 0 and 1. The others lead to the state 4, for good.
#[derive(Clone, Copy)]
struct Stairs;

impl Automaton for Stairs {
    ghost states = { λ _. 5 };

    ghost symbols = { λ _. 2 };

    ghost leads = { λ _ s c. if nat_lt s 3 && nat_eq c (s % 2) then s + 1 else 4 };

    ghost dead = { λ _ s. s ≡ 4 };

    fn states(&self) -> u32 {
        5
    }

    fn symbols(&self) -> u32 {
        2
    }

    fn follow(&self, state: u32, symbol: u32) -> Option<u32> {
        if state < 3 && symbol == state % 2 {
            Some(state + 1)
        } else {
            None
        }
    }
}

const THREES: Ring = Ring { short: 1, long: 3 };

// The word from state 0 to the target.
fn found(ring: Ring, target: u32, out: &mut [u32]) -> Result<Option<usize>, TooLong>
    requires { target < 8 }
{
    let mut work = [9; 40];
    shortest_word(&ring, 0, target, out, &mut work, 5)
}

#[test]
fn start_is_target(rt: HostRuntime) {
    let mut out = [7; 2];
    assert_eq!(rt; found(THREES, 0, &mut out), Ok(Some(0)));
    assert_eq!(rt; out, [7, 7]);
}

#[test]
fn breadth_before_depth(rt: HostRuntime) {
    let mut out = [7; 2];
    assert_eq!(rt; found(THREES, 3, &mut out), Ok(Some(1)));
    assert_eq!(rt; out, [1, 7]);
}

#[test]
fn first_of_two_by_digits(rt: HostRuntime) {
    let mut out = [7; 2];
    assert_eq!(rt; found(THREES, 4, &mut out), Ok(Some(2)));
    assert_eq!(rt; out, [0, 1]);
}

#[test]
fn too_few_cells(rt: HostRuntime) {
    let mut out = [7; 2];
    assert_eq!(rt; found(THREES, 7, &mut out), Err(TooLong { wanted: 3 }));
    assert_eq!(rt; out, [7, 7]);
}

#[test]
fn out_of_reach(rt: HostRuntime) {
    let mut out = [7; 2];
    assert_eq!(rt; found(Ring { short: 2, long: 6 }, 3, &mut out), Ok(None));
    assert_eq!(rt; out, [7, 7]);
}

#[test]
fn dead_states_are_passed_over(rt: HostRuntime) {
    let mut out = [7; 4];
    let mut work = [9; 20];
    assert_eq!(rt;
        shortest_word(&Stairs, 0, 3, &mut out, &mut work, 0),
        Ok(Some(3))
    );
    assert_eq!(rt; out, [0, 1, 0, 7]);
    assert_eq!(rt;
        shortest_word(&Stairs, 2, 1, &mut out, &mut work, 0),
        Ok(None)
    );
}

#[test]
fn words_outside_are_kept(rt: HostRuntime) {
    let mut out = [7; 8];
    let mut work = [9; 40];
    assert_eq!(rt;
        shortest_word(&THREES, 1, 6, &mut out, &mut work, 5),
        Ok(Some(3))
    );
    assert_eq!(rt; out, [0, 0, 1, 7, 7, 7, 7, 7]);
    let (before, rest) = work.split_at(5);
    let (_, behind) = rest.split_at(32);
    assert_eq!(rt; before, [9; 5].as_slice());
    assert_eq!(rt; behind, [9; 3].as_slice());
}

#[test]
fn words_may_hold_anything(rt: HostRuntime) {
    let mut out = [7; 3];
    // As if each state had been found, at the place of its own number.
    let mut work = [0; 40];
    for (i, word) in work.iter_mut().enumerate() {
        *word = (i as u32 + 3) % 8;
    }
    assert_eq!(rt;
        shortest_word(&THREES, 0, 4, &mut out, &mut work, 5),
        Ok(Some(2))
    );
    assert_eq!(rt; out, [0, 1, 7]);
    let evens = Ring { short: 2, long: 6 };
    assert_eq!(rt;
        shortest_word(&evens, 0, 3, &mut out, &mut work, 5),
        Ok(None)
    );
    assert_eq!(rt;
        shortest_word(&THREES, 1, 6, &mut out, &mut work, 5),
        Ok(Some(3))
    );
    assert_eq!(rt; out, [0, 0, 1]);
}
