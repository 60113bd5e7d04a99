// Calls on a window of a draft, which read the pages that the window touches and change none.
#![tactic(auto)]

pub mod count;
mod gather;
pub mod list;
pub mod pick;
mod walk;
mod whole;
