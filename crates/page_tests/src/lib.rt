// Tests of the page format, on pages that are written out byte by byte.
#![tactic(auto)]

pub mod samples;
#[cfg(test)]
mod tests;
