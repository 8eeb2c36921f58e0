#![tactic(auto)]

// Breadth-first search in lent words, for any deterministic automaton: the shortest word that leads from one state to another.
ghost use Rattle.std.specs.Prelude.{◌≡◌, ℕ, ◌+◌, ◌*◌, ◌<◌, ◌≤◌, length, take, drop, MatchOption};
ghost use Rattle.bfs.specs.Words.{NoWord, IsShort};
ghost use Rattle.bfs.specs.Answer.{Says};
ghost use Rattle.bfs.specs.Search.{Empty, origin, Searched, FirstAt, StaysDead};

mod queue;
#[cfg(test)]
mod tests;

use queue::Queue;

// States and symbols are numbers from 0 on, and each symbol leads from each state to one state.
pub trait Automaton {
    // How many states there are.
    ghost states: { Self → ℕ };

    // How many symbols there are.
    ghost symbols: { Self → ℕ };

    // Where a state leads by a symbol.
    ghost leads: { Self → ℕ → ℕ → ℕ };

    // The states that a search passes over: no state is come to from them, but for such ones.
    ghost dead: { Self → ℕ → Type 0 };

    fn states(&self) -> u32
        ensures { result ≡ states self.now };

    fn symbols(&self) -> u32
        ensures { result ≡ symbols self.now };

    // None only where the symbol leads to a dead state. That state may also be the answer.
    fn follow(&self, state: u32, symbol: u32) -> Option<u32>
        requires inside { state < states self.now }
        requires known { symbol < symbols self.now }
        ensures { MatchOption result
            (dead self.now (leads self.now state symbol))
            (λ next. (next ≡ leads self.now state symbol) × (next < states self.now)) };
}

// The word that was found has more symbols than the lent cells, of which none is written.
#[derive(Clone, Copy, PartialEq, Eq, Debug)]
pub struct TooLong {
    // How many symbols it has.
    pub wanted: usize,
}

// The shortest word that leads from start to target, and of these the first by its digits: how many symbols it has, which stand
// first in the lent cells, or that there is none. The queue lies in 4 words for each state, from `base` on. The time is at most
// that of following each symbol from each state once.
#[tactic(auto, using(std::proofs::lemmas::Slice::overwrites))]
pub fn shortest_word<A: Automaton>(
    automaton: &A,
    start: u32,
    target: u32,
    out: &mut [u32],
    work: &mut [u32],
    base: usize,
) -> Result<Option<usize>, TooLong>
    requires start { start < A.states automaton.now }
    requires target { target < A.states automaton.now }
    requires closed { StaysDead (A.leads automaton.now) (A.dead automaton.now) }
    requires live { A.dead automaton.now target → ⊥ }
    requires room { base + 4 * A.states automaton.now ≤ length work.old }
    ensures says { Says (A.symbols automaton.now) (A.leads automaton.now) start target out.old out.new result }
    ensures short { IsShort (A.states automaton.now) (A.symbols automaton.now) (A.leads automaton.now) start target }
    ensures before { take base work.new ≡ take base work.old }
    ensures behind { drop (base + 4 * A.states automaton.now) work.new ≡ drop (base + 4 * A.states automaton.now) work.old }
{
    let n = automaton.states();
    let mut queue = Queue::new(&mut work[base..base + 4 * n as usize], n);
    match search(automaton, start, target, &mut queue) {
        Some(place) => queue.read_back(place, out).map(Some),
        None => Ok(None),
    }
}

// Finds states until the target is among them, or all that can be reached. First in, first out: so the shorter word comes
// first.
fn search<A: Automaton>(automaton: &A, start: u32, target: u32, queue: &mut Queue) -> Option<u32>
    requires start { start < A.states automaton.now }
    requires target { target < A.states automaton.now }
    requires closed { StaysDead (A.leads automaton.now) (A.dead automaton.now) }
    requires live { A.dead automaton.now target → ⊥ }
    requires empty { Empty (A.states automaton.now) queue.old }
    ensures found { MatchOption result
        (NoWord (A.symbols automaton.now) (A.leads automaton.now) start target)
        (FirstAt (A.symbols automaton.now) (A.leads automaton.now) start target queue.new) }
    ensures short { IsShort (A.states automaton.now) (A.symbols automaton.now) (A.leads automaton.now) start target }
{
    queue.push(start, 0, 0);
    for head in 0..automaton.states() {
        if head >= queue.tail || queue.place(target).is_some() {
            break;
        }
        expand(automaton, head, queue);
    }
    queue.place(target)
}

// Pushes each state that is new and that a symbol leads to from the place. The lowest symbol goes first: so of words as long
// the one with smaller digits comes first.
fn expand<A: Automaton>(automaton: &A, place: u32, queue: &mut Queue)
    requires begun { Searched (A.states automaton.now) (A.symbols automaton.now) (A.leads automaton.now) (A.dead automaton.now) (origin queue.old) queue.old place 0 }
    requires inside { place < queue.old.tail }
    ensures { Searched (A.states automaton.now) (A.symbols automaton.now) (A.leads automaton.now) (A.dead automaton.now) (origin queue.old) queue.new (place + 1) 0 }
{
    let state = queue.states[place as usize];
    for symbol in 0..automaton.symbols() {
        let Some(next) = automaton.follow(state, symbol) else {
            continue;
        };
        if queue.place(next).is_none() {
            queue.push(next, place, symbol);
        }
    }
}
