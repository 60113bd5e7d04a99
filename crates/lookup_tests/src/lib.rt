// Tests of the calls that look a draft up, on cards written out by hand.
#![tactic(auto)]

#[cfg(test)]
mod tests;
