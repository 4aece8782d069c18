//! Tests of numbers and of the outside.
#![tactic(auto)]

#[cfg(test)]
mod integers;
#[cfg(test)]
mod numbers;
#[cfg(test)]
mod outside;
