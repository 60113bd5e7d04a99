// Calls that look a draft up and change no page.
#![tactic(auto)]

pub mod ask;
pub mod counts;
pub mod tally;
