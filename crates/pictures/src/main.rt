#![tactic(auto)]

// Draws the files of the folder `data`, in which it is run, again by the commands, and compares them. What it draws stands in the
// folder `drawn`, from where it can be moved to `data` where a change is meant.
use faults::fault::Fault;
use programs::decide::decide;
use programs::run::run;
use reading::words::split_words;
use std::fs;

// The name of each file, and the rule that it is the plaque of.
const PLAQUES: [(&str, &str); 7] = [
    ("way-back", "4 2 0011110022333322"),
    ("way-back-of-16-kinds", SIXTEEN),
    (
        "full-way-back",
        "16 2 0123456789abcdef0132456789abcdef0123456789abcdef0123546789abcdef0123456789abcdef0123457689abcdef0123456789abcdef0123456798abcdef0123456789abcdef0123456789bacdef0123456789abcdef0123456789abdcef0123456789abcdef0123456789abcdfe0123456789abcdef0123456789abcdef",
    ),
    ("orphan", "wolfram 118"),
    ("long-orphan", "2 5 01011010010010011010010110010110"),
    (
        "twins",
        "4 3 2212301330320000100123311300133233300120212131230123120202132211",
    ),
    (
        "long-twins",
        "16 2 0dbe7685c34a291feb1a7395c68f4d02f0be12953674cd8af59214d876ceab034b9c53d0a2ef6718089137c246daf5becb163fd9a824075ee791648fa350db2c401ef9356872bdca5bfc736842e09d1a2d9e10a46f5c7b38abd76389fe420c15a5863cf29e07db14cb741d2f530ea69885b69fa03edc7241afb6c7e54382d910",
    ),
];

// The name of each file, and the rule and the options of the run that it shows.
const DIAGRAMS: [(&str, &str, &str); 3] = [
    (
        "elementary-rule-110",
        "wolfram 110",
        "--single --cells 241 --centre --steps 120",
    ),
    (
        "4-kinds-back",
        "4 2 0011110022333322",
        "--random 60 --steps 30 --back",
    ),
    ("16-kinds", SIXTEEN, "--random 60 --steps 30"),
];

// The upper half of a cell stays, and its lower half is taken from its right neighbour.
const SIXTEEN: &str =
    "16 2 0123012301230123012301230123012301230123012301230123012301230123456745674567456745674567456745674567456745674567456745674567456789ab89ab89ab89ab89ab89ab89ab89ab89ab89ab89ab89ab89ab89ab89ab89abcdefcdefcdefcdefcdefcdefcdefcdefcdefcdefcdefcdefcdefcdefcdefcdef";

fn main(rt: HostRuntime) -> Result<(), Fault> {
    fs::create_dir_all(&rt, "drawn")?;
    for (name, rule) in PLAQUES {
        let args = format!(in rt.alloc(); "{rule} --svg drawn/{name}.svg")?;
        decide(&rt, split_words(rt.alloc(), args.as_str())?.as_slice())?;
        compare(&rt, name)?;
    }
    for (name, rule, options) in DIAGRAMS {
        let args = format!(in rt.alloc(); "{rule} {options} --svg drawn/{name}.svg")?;
        run(&rt, split_words(rt.alloc(), args.as_str())?.as_slice())?;
        compare(&rt, name)?;
    }
    Ok(())
}

// Whether what was drawn just now is what is stored.
fn compare(rt: &HostRuntime, name: &str) -> Result<(), Fault> {
    let stored = format!(in rt.alloc(); "{name}.svg")?;
    let drawn = format!(in rt.alloc(); "drawn/{name}.svg")?;
    let same = fs::read(rt, drawn.as_str())?.as_slice()
        == fs::read(rt, stored.as_str())?.as_slice();
    let found = if same { "as stored" } else { "not as stored" };
    Ok(println!(rt; "{name}.svg: {found}")?)
}
