// What one line of a share table says, and what is said of a line that is wrong.
#![tactic(auto)]

pub mod rows; // rows.rt: the record of a line, or what was expected in it first
pub mod expected; // expected.rt: the line that says what was expected where

// What was expected in a line: `granule`, `partition` or `task`, a number, `/`, or the line's end; or that a granule, where
// it is given, comes once and before the partitions.
#[derive(Clone, Copy, PartialEq, Eq)]
pub enum What {
    Record,
    Number,
    Slash,
    End,
    EarlyGranule,
}

#[derive(Clone, Copy, PartialEq, Eq)]
pub enum Row {
    Nothing,
    Granule(u16),
    Partition {
        cycle: u16,
        num: u16,
        den: u16,
    },
    Task {
        partition: u16,
        budget: u16,
        deadline: u16,
        period: u16,
    },
}
