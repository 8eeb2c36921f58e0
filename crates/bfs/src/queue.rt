// The states that a search has found, in the order in which it found them.
ghost use Rattle.std.specs.Prelude.{◌≡◌, ℕ, ◌*◌, ◌^◌, ◌<◌, ◌≤◌, length, slice_index};

use super::TooLong;

// Nothing is taken out: what was taken stays, for the word to be read back along it. The parts lie side by side, since lent
// words hold numbers only.
#[derive(Drop)]
pub struct Queue<'a> {
    // The state at each place.
    pub states: &'a mut [u32],
    // The place of the state that it was found from.
    parents: &'a mut [u32],
    // The symbol that led from there. The first state has no parent and no symbol.
    symbols: &'a mut [u32],
    // By state: its place, once it is found. Until then any number, since nothing is cleared when a search begins: so a number
    // counts only if it is a place of the queue, and the state stands there.
    places: &'a mut [u32],
    // How many states are found.
    pub tail: u32,
    ghost small: { length states.now < 2 ^ 32 },
    ghost parents_long: { length parents.now ≡ length states.now },
    ghost symbols_long: { length symbols.now ≡ length states.now },
    ghost places_long: { length places.now ≡ length states.now },
    ghost within: { tail ≤ length states.now },
    ghost inside: { (j : ℕ) → j < tail → slice_index states.now j < length states.now },
    ghost placed: { (j : ℕ) → j < tail → slice_index places.now (slice_index states.now j) ≡ j },
    ghost before: { (j : ℕ) → j < tail → 0 < j → slice_index parents.now j < j },
}

impl<'a> Queue<'a> {
    ghost use Rattle.bfs.specs.Search.{Empty};

    // An empty queue for n states, in 4 * n lent words.
    pub fn new(words: &'a mut [u32], n: u32) -> Queue<'a>
        requires { length words.old ≡ 4 * n }
        ensures { Empty n result }
    {
        let n = n as usize;
        let (states, rest) = words.split_at_mut(n);
        let (parents, rest) = rest.split_at_mut(n);
        let (symbols, places) = rest.split_at_mut(n);
        Queue {
            states,
            parents,
            symbols,
            places,
            tail: 0,
        }
    }
}

impl Queue<'_> {
    ghost use Rattle.bfs.specs.Answer.{Copied};
    ghost use Rattle.bfs.specs.Search.{Pushed, IsNew, PlaceOf, word_of};

    // Puts a new state at the end, to which a symbol led from the place of its parent.
    pub fn push(&mut self, state: u32, parent: u32, symbol: u32)
        requires state { state < length self.old.states.now }
        requires new { IsNew self.old state }
        requires parent { 0 < self.old.tail → parent < self.old.tail }
        ensures { Pushed self.old state parent symbol self.new }
    {
        let last = self.tail as usize;
        // Each place before has a state of its own, so there is room for a new one.
        prove!(last < self.states.len());
        self.states[last] = state;
        self.parents[last] = parent;
        self.symbols[last] = symbol;
        self.places[state as usize] = self.tail;
        self.tail += 1;
    }

    // The place of a state, if it is found. A number that is no place of the queue is taken for the last one, so that one test
    // tells: a state stands at its own place only.
    pub fn place(&self, state: u32) -> Option<u32>
        requires state { state < length self.now.states.now }
        requires some { 0 < self.now.tail }
        ensures { PlaceOf self.now state result }
    {
        let place = self.places[state as usize].min(self.tail - 1);
        (self.states[place as usize] == state).then_some(place)
    }

    // Copies the word that led to a place from the first one, if the lent cells are enough. That the place is one of the queue is a
    // clause here and in what follows: a type for it would have to borrow the queue.
    pub fn read_back(&self, place: u32, out: &mut [u32]) -> Result<usize, TooLong>
        requires { place < self.now.tail }
        ensures { Copied (word_of self.now place) out.old out.new result }
    {
        let wanted = self.depth(place);
        if wanted > out.len() {
            return Err(TooLong { wanted });
        }
        self.spell(place, &mut out[0..wanted]);
        Ok(wanted)
    }

    // The places on the way back from a place to the first one, which no symbol led to and which is not among them.
    fn ancestors(&self, place: u32) -> Ancestors<'_>
        requires { place < self.now.tail }
        ensures parents { result.parents.now ≡ self.now.parents.now }
        ensures at { result.at ≡ place }
    {
        Ancestors {
            parents: self.parents,
            at: place,
        }
    }

    // How many symbols the word of a place has.
    fn depth(&self, place: u32) -> usize
        requires { place < self.now.tail }
        ensures { result ≡ length (word_of self.now place) }
    {
        self.ancestors(place).count()
    }

    // Writes the word of a place, from its end, into as many cells.
    fn spell(&self, place: u32, word: &mut [u32])
        requires inside { place < self.now.tail }
        requires long { length word.old ≡ length (word_of self.now place) }
        ensures { word.new ≡ word_of self.now place }
    {
        let n = word.len();
        // By index: what is written through `iter_mut().rev()` no invariant can name.
        for (i, at) in self.ancestors(place).enumerate() {
            word[n - 1 - i] = self.symbols[at as usize];
        }
    }
}

// Goes from a place to that of its parent, and so on.
#[derive(Drop)]
struct Ancestors<'a> {
    parents: &'a [u32],
    at: u32,
    ghost inside: { at < length parents.now },
    ghost falls: { (j : ℕ) → 0 < j → j ≤ at → slice_index parents.now j < j },
}

impl Iterator for Ancestors<'_> {
    ghost use Rattle.std.specs.Iterator.{YieldsFirst, item_count};
    ghost use Rattle.bfs.specs.Parents.{ancestors};

    type Item = u32;

    ghost next_gives = { YieldsFirst (λ w. ancestors w.parents.now w.at) };

    ghost remaining = { item_count (λ w. ancestors w.parents.now w.at) };

    #[tactic(auto, using(crate::proofs::Spelling::ancestors_on))]
    fn next(&mut self) -> Option<u32> {
        if self.at == 0 {
            return None;
        }
        let place = self.at;
        self.at = self.parents[place as usize];
        Some(place)
    }
}
