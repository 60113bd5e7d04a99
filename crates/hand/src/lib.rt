// Points in the hand: the points of a data page, and what is done with them.
#![tactic(auto)]

pub mod lone;
mod places;
pub mod points;
#[cfg(test)]
mod tests;
