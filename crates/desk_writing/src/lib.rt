// The steps of the writing passes, by value.
// Nothing here sees a table: desk_walks goes over it and calls these.

#![tactic(auto)]

pub mod shift; // shift.rt: one step of the shift pass
pub mod fit; // fit.rt: one step of the flexibility pass
