// Words, and the numbers in them.
ghost use Rattle.std.specs.List.{join_with_byte};
ghost use Rattle.std.specs.Prelude.{◌≡◌, map, string_bytes, Ok, IfOk, MatchResult};
ghost use Rattle.reading.specs.Split.{WordsOf};
ghost use Rattle.reading.specs.Words.{Unparsed};

use faults::name::Name;
use faults::no_words::NoWords;
use std::alloc::{AllocError, Global};
use std::str::FromStr;

/// The words of a line, between any white space.
pub fn split_words(heap: Global, line: &str) -> Result<Vec<String>, AllocError>
    ensures { IfOk result (λ v. WordsOf line.now (map string_bytes v.items)) }
{
    let mut words = Vec::new(heap);
    // A `for`: a chain that is collected says what each word is, and not that none is missed.
    for word in line.split_whitespace() {
        words.push(String::from_str(heap, word)?)?;
    }
    Ok(words)
}

/// The words with a space between any two.
#[tactic(auto, using(crate::proofs::Spaced::spaced))]
pub fn join_words(heap: Global, words: &[String]) -> Result<String, AllocError>
    ensures { IfOk result (λ s. string_bytes s ≡ join_with_byte 32 (map string_bytes words.now)) }
{
    words.join(heap, " ")
}

/// The whole number that a word is.
pub fn number<N: FromStr>(heap: Global, name: Name, word: &str) -> Result<N, NoWords>
where
    N::Err: Drop,
    ensures { MatchResult result
        (λ n. N.from_str_gives word.now (Ok n))
        (Unparsed N.from_str_gives name word.now) }
{
    word.parse().try_map_err(|_| Ok(NoWords::NoNumber(name, String::from_str(heap, word)?)))
}
