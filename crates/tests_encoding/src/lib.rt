//! Runs of `encode`, `rate` and `make` over memory: streams by hand, and what comes back of noise.
#![tactic(auto)]

#[cfg(test)]
mod encoding;
#[cfg(test)]
mod fields;
#[cfg(test)]
mod making;
#[cfg(test)]
mod modes;
#[cfg(test)]
mod rates;
