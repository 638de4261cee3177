// The steps of the reading pass, by value: each listed job is checked and searched at once.
// Nothing here sees a table: desk_walks goes over it and calls these.

#![tactic(auto)]

pub mod checking; // checking.rt: the table check at a listed job
pub mod best; // best.rt: the roomiest place that the search has come past
pub mod searching; // searching.rt: one step of the search
pub mod scan; // scan.rt: both at once
