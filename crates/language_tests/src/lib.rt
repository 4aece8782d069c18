//! Tests of the language's crates, of what no clause says.
#![tactic(auto)]

#[cfg(test)]
mod lists;
#[cfg(test)]
mod native_tables;
