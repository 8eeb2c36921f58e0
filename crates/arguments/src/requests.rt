// What the arguments ask for.
use running::run::Mode;

/// What a program is asked: to print a text, its help or its version, or to carry out a request.
#[derive(Debug, Drop)]
pub enum Asked<R> {
    Text(String),
    For(R),
}

/// Which rules are asked about.
#[derive(Debug, Drop)]
pub enum Rules {
    /// The rule in these words.
    Words(Vec<String>),
    /// The rules of standard input, a line each. With echo each answer stands behind its rule.
    Input { echo: bool },
}

/// Where the reason of an answer is drawn.
#[derive(Debug, Drop)]
pub enum Picture {
    None,
    Printed,
    /// In a file of this name, or on standard output for the name `-`.
    File(String),
}

/// What `decide` is asked. Of the rules of standard input there is no picture.
#[derive(Debug, Drop)]
pub struct DecideRequest {
    pub rules: Rules,
    pub picture: Picture,
}

/// What `finite` is asked.
#[derive(Debug, Drop)]
pub struct FiniteRequest {
    pub rules: Rules,
    pub picture: bool,
}

/// Where the first row of a run comes from.
#[derive(Debug, Drop)]
pub enum Source {
    /// The cells as they are typed: `-` for standard input, or @ and the name of a file.
    Row(String),
    Random { cells: usize, seed: u64 },
    Single { cells: usize },
}

/// Where the rows of a run go.
#[derive(Debug, Drop)]
pub enum Output {
    /// Printed, as digits.
    Digits,
    /// Printed, as block characters.
    Glyphs,
    /// Drawn in a file of this name, or on standard output for the name `-`.
    File(String),
}

/// What `run` is asked.
#[derive(Debug, Drop)]
pub struct RunRequest {
    pub words: Vec<String>,
    pub mode: Mode,
    pub centre: bool,
    pub source: Source,
    pub steps: u64,
    pub last: bool,
    pub output: Output,
}
