// What a value among the arguments is for.

/// The parts of a rule in words, and the options that have a value.
#[derive(Clone, Copy, PartialEq, Eq, Debug)]
pub enum Name {
    Kinds,
    Width,
    Table,
    Row,
    Random,
    Cells,
    Seed,
    Steps,
    Place,
    Svg,
}
