#![tactic(auto)]

// The table of a rule from the rule's number.
ghost use Rattle.std.specs.Prelude.{◌≡◌, ◌+◌, ◌*◌, ◌^◌, ◌<◌, ◌≤◌, ◌↔◌, length, IsTrue, MatchResult};
ghost use Rattle.std.specs.Str.Parse.{IsNumeral};
ghost use Rattle.rules.specs.Rules.{Cells};
ghost use Rattle.wolfram.specs.declared.NoDigits.TheVariants.{Memory as no_memory};
ghost use Rattle.wolfram.specs.Numbers.{Digits, Refused, worth};

#[cfg(test)]
mod tests;

use std::alloc::{AllocError, Global};

/// Why a table was not made of a number.
#[derive(Clone, Copy, Debug, PartialEq, Eq)]
pub enum NoDigits {
    /// The text is empty, or has another byte than a decimal digit: a sign too.
    NoNumeral,
    /// The number has more digits than places.
    Large,
    Memory,
}

// By hand: a contract says that it is `Memory`, and what `thiserror` derives has no contract.
impl From<AllocError> for NoDigits {
    ghost from_gives = { λ _ r. r ≡ no_memory };

    fn from(_e: AllocError) -> NoDigits {
        NoDigits::Memory
    }
}

/// The table of the rule that has this number: the cell of window w is the digit of worth base^w. The number may be of any
/// length. The time grows with its length times the places.
#[tactic(auto, using(crate::proofs::Reading::byte_of_digit))]
pub fn number_digits(
    heap: Global,
    base: u32,
    places: usize,
    number: &str,
) -> Result<Vec<u32>, NoDigits>
    requires { 2 ≤ base }
    ensures { MatchResult result
        (λ v. Digits base places number.now v.items)
        (Refused base places number.now) }
{
    let text = number.as_bytes();
    if !is_numeral(text) {
        return Err(NoDigits::NoNumeral);
    }
    let mut table = vec![in heap; 0; places]?;
    for &byte in text {
        let carry = append_digit(base, &mut table, byte - b'0');
        // The number only grows: what is too large now stays so.
        if carry > 0 {
            return Err(NoDigits::Large);
        }
    }
    Ok(table)
}

fn is_numeral(text: &[u8]) -> bool
    ensures { IsTrue result ↔ IsNumeral 10 text.now }
{
    !text.is_empty() && text.iter().all(|byte| byte.is_ascii_digit())
}

// Multiplies the number by ten, and adds a decimal digit. What the places cannot hold is the result.
fn append_digit(base: u32, table: &mut [u32], digit: u8) -> u64
    requires base { 2 ≤ base }
    requires digit { digit < 10 }
    requires cells { Cells base table.old }
    ensures cells { Cells base table.new }
    ensures number { worth base table.new + base ^ length table.old * result ≡ worth base table.old * 10 + digit }
{
    let mut carry = u64::from(digit);
    for cell in table.iter_mut() {
        let sum = u64::from(*cell) * 10 + carry;
        *cell = (sum % u64::from(base)) as u32;
        carry = sum / u64::from(base);
    }
    carry
}
