//! Runs of the commands over memory: streams that are cut and joined, a source and sinks whose calls fail one by one,
//! flushes, and runs that memory is found for, among them pictures of usual sizes and of the largest size: that it is
//! found is said by no clause.
#![tactic(auto)]

#[cfg(test)]
mod cutting;
#[cfg(test)]
mod devices;
#[cfg(test)]
mod flushes;
#[cfg(test)]
mod joining;
#[cfg(test)]
mod raw;
#[cfg(test)]
mod shape_streams;
#[cfg(test)]
mod shapes;
#[cfg(test)]
mod sizes;
