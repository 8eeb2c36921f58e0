// The table that words ask for.
ghost use Rattle.std.specs.Prelude.{◌≡◌, ℕ, ◌≤◌, map, string_bytes, IfOk, MatchResult};
ghost use Rattle.rules.specs.Rules.{rule_of};
ghost use Rattle.running.specs.Runs.{moved, LeastBack, NoLeastBack, NothingRuns, Runs};
ghost use Rattle.running.specs.Tables.{place_on, rule_in};

use crate::back::find_way_back;
use crate::run::{Mode, Run};
use crate::table::RingTable;
use answers::given::GivenRule;
use faults::fault::Fault;
use reading::rules_in_words::{GivenTable, parse_rule, parse_way_back};
use rules::rule::MOST_WINDOWS;
use std::alloc::{AllocError, Global};

/// The rule, or the way back, that the words ask to be run so.
pub fn find_table(heap: Global, words: &[String], run: &Run) -> Result<RingTable, Fault>
    ensures { MatchResult result
        (λ t. (n : ℕ) → 1 ≤ n → Runs (map string_bytes words.now) run.now n (rule_in t) (place_on t n))
        (NothingRuns (map string_bytes words.now) run.now) }
{
    match run.mode {
        Mode::Forwards => match parse_rule(heap, words) {
            Ok(given) => Ok(forwards_table(heap, &given, run.centre)?),
            Err(reason) => Err(Fault::NotRun(reason)),
        },
        Mode::Backwards => match parse_rule(heap, words) {
            Ok(given) => backwards_table(heap, &given, run.centre),
            Err(reason) => Err(Fault::NotDecided(reason)),
        },
        Mode::WayBack(place) => match parse_way_back(heap, words) {
            Ok(given) => Ok(way_back_table(given, place)),
            Err(reason) => Err(Fault::NotRun(reason)),
        },
    }
}

// The table of a rule, at the place that it runs at.
fn forwards_table(heap: Global, given: &GivenRule, centre: bool) -> Result<RingTable, AllocError>
    ensures { IfOk result (λ t. (rule_in t ≡ rule_of given.now.kinds given.now.wide given.now.table.items) × (t.place ≡ moved centre given.now.wide) × (t.shift ≡ 0)) }
{
    let wide = given.rule().local.wide();
    let table = given.table().to_vec(heap)?;
    Ok(RingTable::new(given.kinds(), wide, table, shift_of(centre, wide)))
}

// The table of the least way back of a rule, at the place where it undoes what was moved.
fn backwards_table(heap: Global, given: &GivenRule, centre: bool) -> Result<RingTable, Fault>
    ensures { MatchResult result
        (λ t. LeastBack (rule_of given.now.kinds given.now.wide given.now.table.items) (rule_in t) t.place × (t.shift ≡ moved centre given.now.wide))
        (NoLeastBack (rule_of given.now.kinds given.now.wide given.now.table.items)) }
{
    let mut table = vec![in heap; 0; MOST_WINDOWS]?;
    let told = find_way_back(heap, given, table.as_mut_slice())?;
    let kinds = given.kinds();
    table.truncate((kinds as usize).pow(told.width));
    let shift = shift_of(centre, given.rule().local.wide());
    Ok(RingTable::new(kinds, told.width, table, told.place as usize).shifted(shift))
}

// The table of a way back, at its place.
fn way_back_table(given: GivenTable, place: usize) -> RingTable
    ensures rule { rule_in result ≡ rule_of given.kinds given.wide given.table.items }
    ensures place { (result.place ≡ place) × (result.shift ≡ 0) }
{
    let (kinds, wide) = (given.rule().kinds(), given.rule().wide());
    RingTable::new(kinds, wide, given.into_table(), place)
}

// By how many cells a rule of this width moves each next row to the right.
fn shift_of(centre: bool, wide: u32) -> usize
    requires { 1 ≤ wide }
    ensures { result ≡ moved centre wide }
{
    if centre { ((wide - 1) / 2) as usize } else { 0 }
}
