// The desk's decision, by value: what the reading pass begins with, and what is decided at its end.
// Nothing here sees a table: desk_lent lends it to the passes and calls these.

#![tactic(auto)]

pub mod begin; // begin.rt: what the reading pass begins with
pub mod effect; // effect.rt: what is decided, and what that makes of the record and of the table
