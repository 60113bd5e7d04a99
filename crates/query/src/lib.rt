// Windows, and queries as windows.
#![tactic(auto)]

pub mod choice;
pub mod coordinates;
pub mod window;
