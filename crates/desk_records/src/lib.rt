// The rules of one job record, by value, and numbers that never wrap.

#![tactic(auto)]

pub mod numbers; // numbers.rt: numbers that never wrap, and a request's limits
pub mod records; // records.rt: the rules of one job record
