#![tactic(auto)]

// Rules by example: a crate of its own, so that what it tests is proved once.
#[cfg(test)]
mod decisions;
#[cfg(test)]
mod finite_twins;
#[cfg(test)]
mod parts;
#[cfg(test)]
mod rings;
#[cfg(test)]
mod worked;
#[cfg(test)]
mod workspaces;
