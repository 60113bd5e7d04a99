// The pages of a card: views over their 64 bytes, checks, and encoders.
#![tactic(auto)]

pub mod data_page;
pub mod directory_page;
pub mod encode;
pub mod entry;
pub mod fault;
pub mod free_page;
pub mod head_page;
pub mod laws;
mod numbers;
pub mod tree_page;
mod zeros;
