//! The decoders and the encoder, called without the commands: rows dealt to threads, by maps, in encoding and in
//! decoding (what gates hold, and that no number of workers changes an answer); streams sent in pieces, and planes
//! copied at a stride; and intra pictures whose payloads are worked out by hand.
#![tactic(auto)]

#[cfg(test)]
mod decoding;
#[cfg(test)]
mod encoding;
#[cfg(test)]
mod gates;
#[cfg(test)]
mod intra_coding;
#[cfg(test)]
mod pieces;
#[cfg(test)]
mod rows;
