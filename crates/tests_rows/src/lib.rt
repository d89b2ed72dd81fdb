//! Worked values over the libraries: each comes from the standard's formulas by hand or from another program.
#![tactic(auto)]

#[cfg(test)]
mod adapters;
#[cfg(test)]
mod arithmetic;
#[cfg(test)]
mod bits;
#[cfg(test)]
mod block_choices;
#[cfg(test)]
mod block_tables;
#[cfg(test)]
mod encoding;
#[cfg(test)]
mod geometry;
#[cfg(test)]
mod half_samples;
#[cfg(test)]
mod headers;
#[cfg(test)]
mod lifting;
#[cfg(test)]
mod lists;
#[cfg(test)]
mod motion_search;
#[cfg(test)]
mod narrow;
#[cfg(test)]
mod planning;
#[cfg(test)]
mod predictions;
#[cfg(test)]
mod quantiser;
#[cfg(test)]
mod sequences;
#[cfg(test)]
mod units;
