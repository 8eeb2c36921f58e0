#![tactic(auto)]

// Decides many rules and compares each answer with a second opinion, which shares no code with the decision. It is proved that
// this ends and is safe; what it finds is only tested, which is its point.
mod agreement;
mod compared;
mod digits;
mod drawn;
mod endless_rows;
mod nexts;
mod opinion;
mod orphan;
mod rounds;
mod tally;
mod told;
mod ways;

use agreement::{Outcome, compare_answer};
use compared::{Rule, all_of_two_kinds, worked_rules};
use drawn::drawn_rules;
use nexts::Room;
use opinion::{Opinion, form_opinion};
use std::alloc::{AllocError, Global};
use std::io;
use tally::Tally;
use told::Told;
use undone::{WORK, decide};

// Every way back that the opinion may find fits: 16 kinds of width 4 are 65,536 cells.
const CELLS: usize = 262_144;

const DRAWN: usize = 1000;

const SEED: u64 = 1;

// What rules are decided in.
#[derive(Drop)]
struct Page {
    told: Vec<u32>,
    work: Vec<u32>,
}

impl Page {
    // Decides a rule. Nothing is left of what was told before.
    fn decide(&mut self, rule: &Rule) -> Told<'_> {
        self.told.fill(u32::MAX);
        let answer = decide(
            rule.kinds,
            rule.wide,
            rule.table.as_slice(),
            self.told.as_mut_slice(),
            self.work.as_mut_slice(),
        );
        Told {
            kinds: rule.kinds,
            answer,
            cells: self.told.as_slice(),
        }
    }
}

// What is made once for all rules.
#[derive(Drop)]
struct Workspace {
    page: Page,
    room: Room,
}

impl Workspace {
    fn new(heap: Global) -> Result<Workspace, AllocError> {
        Ok(Workspace {
            page: Page {
                told: vec![in heap; 0; CELLS]?,
                work: vec![in heap; 0; WORK]?,
            },
            room: Room::new(heap)?,
        })
    }
}

fn main(rt: HostRuntime) -> io::Result<()> {
    let heap = rt.alloc();
    let mut workspace = Workspace::new(heap)?;
    let worked = worked_rules(heap)?;
    let mut count = compare_rules(&rt, &mut workspace, "worked rules", worked.as_slice())?;
    for wide in 2..4 {
        let name = format!(in heap; "rules of two kinds and width {wide}")?;
        let rules = all_of_two_kinds(heap, wide)?;
        let more = compare_rules(&rt, &mut workspace, name.as_str(), rules.as_slice())?;
        count = count.saturating_add(more);
    }
    let drawn = drawn_rules(heap, DRAWN, SEED)?;
    let more = compare_rules(&rt, &mut workspace, "rules at random", drawn.as_slice())?;
    compare_wrong_answers(&rt, &mut workspace, worked.as_slice())?;
    count = count.saturating_add(more);
    println!(rt; "{count} disagreements")
}

// Decides each rule and compares the answer with the opinion. Prints the disagreements and the counts; how many disagree.
fn compare_rules(
    rt: &HostRuntime,
    workspace: &mut Workspace,
    name: &str,
    rules: &[Rule],
) -> io::Result<u32> {
    let mut tally = Tally::default();
    for rule in rules {
        let told = workspace.page.decide(rule);
        let opinion = form_opinion(rt.alloc(), rule, &mut workspace.room)?;
        let outcome = compare_answer(rt.alloc(), rule, told, &opinion)?;
        if outcome == Outcome::Disagrees {
            print_disagreement(rt, rule, told, &opinion)?;
        }
        tally.add(told.answer, outcome);
    }
    println!(rt; "{} {name}", rules.len())?;
    print!(rt; "{tally}")?;
    Ok(tally.disagreements())
}

fn print_disagreement(
    rt: &HostRuntime,
    rule: &Rule,
    told: Told,
    opinion: &Opinion,
) -> io::Result<()> {
    println!(rt; "disagreement on {rule}")?;
    println!(rt; "    decide: {told}")?;
    println!(rt; "    opinion: {opinion}")
}

// Compares the answer to each rule with the opinions of the other rules. All these answers are wrong, which shows whether the
// comparison finds wrong ones.
fn compare_wrong_answers(
    rt: &HostRuntime,
    workspace: &mut Workspace,
    rules: &[Rule],
) -> io::Result<()> {
    let mut tally = Tally::default();
    for (right, rule) in rules.iter().enumerate() {
        let told = workspace.page.decide(rule);
        compare_with_others(
            rt.alloc(),
            &mut workspace.room,
            told,
            right,
            rules,
            &mut tally,
        )?;
    }
    println!(rt; "wrong answers to the worked rules")?;
    print!(rt; "{tally}")
}

fn compare_with_others(
    heap: Global,
    room: &mut Room,
    told: Told,
    right: usize,
    rules: &[Rule],
    tally: &mut Tally,
) -> Result<(), AllocError> {
    for (i, rule) in rules.iter().enumerate() {
        if i != right {
            let opinion = form_opinion(heap, rule, room)?;
            tally.add(told.answer, compare_answer(heap, rule, told, &opinion)?);
        }
    }
    Ok(())
}
