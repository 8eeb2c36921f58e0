// Numbers of two digits in some base, split into them by tables.
ghost use Rattle.std.specs.Prelude.{◌≡◌, ℕ, ◌+◌, ◌/◌, ◌%◌, ◌^◌, ◌<◌, length, slice_index};

// A look-up takes the place of a division, of which a search would do some for each symbol that it follows.
#[derive(Clone, Copy)]
pub struct Split<'t> {
    base: u32,
    // By number: its two digits. The first may be any number.
    pub firsts: &'t [u32],
    pub seconds: &'t [u32],
    ghost as_long: { length seconds.now ≡ length firsts.now },
    ghost first: { (i : ℕ) → i < length firsts.now → slice_index firsts.now i ≡ i / base },
    ghost second: { (i : ℕ) → i < length firsts.now → slice_index seconds.now i ≡ i % base },
}

impl<'t> Split<'t> {
    // Splits the numbers from 0 on, as many as there are pairs of words.
    pub fn fill(base: u32, count: usize, words: &'t mut [u32]) -> Split<'t>
        requires base { 0 < base }
        requires few { count < 2 ^ 32 }
        requires room { length words.old ≡ count + count }
        ensures base { result.base ≡ base }
        ensures count { length result.firsts.now ≡ count }
    {
        let (firsts, seconds) = words.split_at_mut(count);
        fill_digits(base, firsts, seconds);
        Split {
            base,
            firsts,
            seconds,
        }
    }

    pub fn first(self, number: usize) -> u32
        requires { number < length self.firsts.now }
        ensures { result ≡ number / self.entry.base }
    {
        self.firsts[number]
    }

    pub fn second(self, number: usize) -> u32
        requires { number < length self.firsts.now }
        ensures { result ≡ number % self.entry.base }
    {
        self.seconds[number]
    }
}

// The digits of each number, which go round by hand.
fn fill_digits(base: u32, firsts: &mut [u32], seconds: &mut [u32])
    requires base { 0 < base }
    requires few { length firsts.old < 2 ^ 32 }
    requires as_long { length seconds.old ≡ length firsts.old }
    ensures first { (i : ℕ) → i < length firsts.new → slice_index firsts.new i ≡ i / base }
    ensures second { (i : ℕ) → i < length firsts.new → slice_index seconds.new i ≡ i % base }
{
    let mut first = 0;
    let mut second = 0;
    for number in 0..firsts.len() {
        firsts[number] = first;
        seconds[number] = second;
        second += 1;
        if second == base {
            first += 1;
            second = 0;
        }
    }
}
