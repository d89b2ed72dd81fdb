//! Runs of `list`, `decode` and `pardecode` over memory: values by hand, and the first fault of every field.
#![tactic(auto)]

#[cfg(test)]
mod decoding;
#[cfg(test)]
mod faults;
#[cfg(test)]
mod inter;
