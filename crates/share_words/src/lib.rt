// The words of a line, and what they say as numbers.
#![tactic(auto)]

pub mod words; // words.rt: where a search in a line stops, and the words that stand apart
pub mod numbers; // numbers.rt: what a word says as a number
