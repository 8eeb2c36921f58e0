// A rule in words: KINDS WIDTH TABLE, wolfram N, or wolfram KINDS WIDTH N. A way back is given in the same words.
ghost use Rattle.std.proofs.Props.{props};
ghost use Rattle.std.specs.Prelude.{◌≡◌, ◌^◌, ◌↔◌, codes, map, string_bytes, IfErr, IsTrue, MatchResult};
ghost use Rattle.reading.specs.Words.{Elementary, InWords, Means, MeansBack, NotMeant, Numbered, RuleRefused, Runs, Serves};
ghost use Rattle.reading.specs.Words.{Sized, SizeRefused, Typed, WayBackRefused};
ghost use Rattle.reading.specs.Wrong.{ElementaryTold, MeansNone, MeansNoneBack, NumberedTold, TypedTold, Unread};
ghost use Rattle.rules.specs.Local.{the_rule};
ghost use Rattle.rules.specs.Rules.{rule_of, Sound};

use crate::cells::{MOST_KINDS, read_cells};
use crate::words::{join_words, number};
use answers::given::GivenRule;
use faults::name::Name;
use faults::no_words::{BadTable, NoWords};
use rules::local::LocalRule;
use rules::rule::NoRule;
use rules::sound::SoundRule;
use std::alloc::Global;
use wolfram::{NoDigits, number_digits};

// The word before the number of a rule.
const WOLFRAM: &str = "wolfram";

const ELEMENTARY_KINDS: u32 = 2;

const ELEMENTARY_WIDTH: u32 = 3;

/// A table that can be run on a ring, as a way back of any width, and that has a digit for each of its kinds.
#[derive(Drop)]
pub struct GivenTable {
    kinds: u32,
    wide: u32,
    table: Vec<u32>,
    ghost runs: { Runs (rule_of kinds wide table.items) } by { Prim.hlevel props },
}

impl GivenTable {
    pub fn rule(&self) -> LocalRule<'_>
        ensures { the_rule result ≡ rule_of self.now.kinds self.now.wide self.now.table.items }
    {
        LocalRule::new(self.kinds, self.wide, self.table.as_slice())
    }

    /// The cells of the table, in order of the windows' numbers.
    pub fn into_table(self) -> Vec<u32>
        ensures { result.items ≡ self.table.items }
    {
        self.table
    }
}

// A table as it is read, before it is found to fit its numbers.
#[derive(Drop)]
struct ReadTable {
    kinds: u32,
    wide: u32,
    table: Vec<u32>,
}

// What a table is read for.
#[derive(Clone, Copy)]
enum Use {
    Decision,
    WayBack,
}

/// The rule that the words mean.
pub fn parse_rule(heap: Global, words: &[String]) -> Result<GivenRule, NoWords>
    ensures { MatchResult result
        (λ g. Means (map string_bytes words.now) (rule_of g.kinds g.wide g.table.items))
        (MeansNone (map string_bytes words.now)) }
{
    let ReadTable { kinds, wide, table } = parse_table(heap, words, Use::Decision)?;
    new_rule(kinds, wide, table)
}

/// The way back that the words mean.
pub fn parse_way_back(heap: Global, words: &[String]) -> Result<GivenTable, NoWords>
    ensures { MatchResult result
        (λ g. MeansBack (map string_bytes words.now) (rule_of g.kinds g.wide g.table.items))
        (MeansNoneBack (map string_bytes words.now)) }
{
    let ReadTable { kinds, wide, table } = parse_table(heap, words, Use::WayBack)?;
    new_way_back(kinds, wide, table)
}

fn parse_table(heap: Global, words: &[String], purpose: Use) -> Result<ReadTable, NoWords>
    ensures read { MatchResult result
        (λ t. InWords (map string_bytes words.now) (rule_of t.kinds t.wide t.table.items))
        (NotMeant (λ r. InWords (map string_bytes words.now) r × Serves purpose r)) }
    ensures told { IfErr result (Unread purpose (map string_bytes words.now)) }
{
    match words {
        [name, number] if is_wolfram(name.as_str()) => elementary_table(heap, number.as_str()),
        [name, kinds, wide, number] if is_wolfram(name.as_str()) => numbered_table(
            heap,
            kinds.as_str(),
            wide.as_str(),
            number.as_str(),
            purpose,
        ),
        [name, _, extra] if is_wolfram(name.as_str()) => Err(NoWords::Extra(extra.clone()?)),
        [name, _, _, _, extra, ..] if is_wolfram(name.as_str()) => {
            Err(NoWords::Extra(extra.clone()?))
        }
        [kinds, wide, cells] => typed_table(heap, kinds.as_str(), wide.as_str(), cells.as_str()),
        [_, _, _, extra, ..] => Err(NoWords::Extra(extra.clone()?)),
        _ => Err(NoWords::Few(join_words(heap, words)?)),
    }
}

fn is_wolfram(word: &str) -> bool
    ensures { IsTrue result ↔ (word.now ≡ codes "wolfram") }
{
    word == WOLFRAM
}

fn typed_table(heap: Global, kinds: &str, wide: &str, cells: &str) -> Result<ReadTable, NoWords>
    ensures read { MatchResult result
        (λ t. Typed kinds.now wide.now cells.now (rule_of t.kinds t.wide t.table.items))
        (NotMeant (Typed kinds.now wide.now cells.now)) }
    ensures told { IfErr result (TypedTold kinds.now wide.now cells.now) }
{
    let kinds = number(heap, Name::Kinds, kinds)?;
    let wide = number(heap, Name::Width, wide)?;
    let table = read_cells(heap, Name::Table, MOST_KINDS, cells)?;
    Ok(ReadTable { kinds, wide, table })
}

fn elementary_table(heap: Global, number: &str) -> Result<ReadTable, NoWords>
    ensures read { MatchResult result
        (λ t. Elementary number.now (rule_of t.kinds t.wide t.table.items))
        (NotMeant (Elementary number.now)) }
    ensures told { IfErr result (ElementaryTold number.now) }
{
    match number_digits(heap, ELEMENTARY_KINDS, 8, number) {
        Ok(table) => Ok(ReadTable {
            kinds: ELEMENTARY_KINDS,
            wide: ELEMENTARY_WIDTH,
            table,
        }),
        Err(NoDigits::Memory) => Err(NoWords::Memory),
        Err(_) => Err(NoWords::NoElementary(String::from_str(heap, number)?)),
    }
}

fn numbered_table(
    heap: Global,
    kinds: &str,
    wide: &str,
    number_word: &str,
    purpose: Use,
) -> Result<ReadTable, NoWords>
    ensures read { MatchResult result
        (λ t. Numbered kinds.now wide.now number_word.now (rule_of t.kinds t.wide t.table.items))
        (NotMeant (λ r. Numbered kinds.now wide.now number_word.now r × Serves purpose r)) }
    ensures told { IfErr result (NumberedTold purpose kinds.now wide.now number_word.now) }
{
    let kinds = number(heap, Name::Kinds, kinds)?;
    let wide = number(heap, Name::Width, wide)?;
    let windows = count_windows(kinds, wide, purpose)?;
    match number_digits(heap, kinds, windows, number_word) {
        Ok(table) => Ok(ReadTable { kinds, wide, table }),
        Err(NoDigits::Memory) => Err(NoWords::Memory),
        Err(NoDigits::NoNumeral) => Err(NoWords::NoNumeral(String::from_str(heap, number_word)?)),
        Err(NoDigits::Large) => Err(NoWords::LargeNumber { kinds, wide }),
    }
}

// How many windows there are, if no table of these numbers is refused for them: an empty table has none, and is told how many it wants.
fn count_windows(kinds: u32, wide: u32, purpose: Use) -> Result<usize, NoWords>
    ensures { MatchResult result
        (λ n. Sized purpose kinds wide × (n ≡ kinds ^ wide))
        (SizeRefused purpose kinds wide) }
{
    let refusal = match purpose {
        Use::Decision => SoundRule::try_new(kinds, wide, &[]).err(),
        Use::WayBack => LocalRule::try_new(kinds, wide, &[]).err(),
    };
    match refusal {
        Some(NoRule::Length { wanted, .. }) => Ok(wanted),
        Some(reason) => Err(NoWords::Table(BadTable {
            reason,
            kinds,
            wide,
        })),
        None => Ok(0),
    }
}

/// A rule, or what is wrong with its table.
pub fn new_rule(kinds: u32, wide: u32, table: Vec<u32>) -> Result<GivenRule, NoWords>
    ensures { MatchResult result
        (λ g. (rule_of g.kinds g.wide g.table.items ≡ rule_of kinds wide table.items) × Sound (rule_of kinds wide table.items))
        (RuleRefused kinds wide table.items) }
{
    GivenRule::new(kinds, wide, table).map_err(|reason| {
        NoWords::Table(BadTable {
            reason,
            kinds,
            wide,
        })
    })
}

// A table that can be run as a way back, or what is wrong with it.
fn new_way_back(kinds: u32, wide: u32, table: Vec<u32>) -> Result<GivenTable, NoWords>
    ensures { MatchResult result
        (λ g. (rule_of g.kinds g.wide g.table.items ≡ rule_of kinds wide table.items) × Runs (rule_of kinds wide table.items))
        (WayBackRefused kinds wide table.items) }
{
    let reason = match LocalRule::try_new(kinds, wide, table.as_slice()) {
        _ if kinds > MOST_KINDS => NoRule::Large,
        Ok(_) => return Ok(GivenTable { kinds, wide, table }),
        Err(reason) => reason,
    };
    Err(NoWords::Table(BadTable {
        reason,
        kinds,
        wide,
    }))
}
