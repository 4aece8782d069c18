//! Tests of series over worked quotes.
#![tactic(auto)]

#[cfg(test)]
mod buffers;
#[cfg(test)]
mod worked;
