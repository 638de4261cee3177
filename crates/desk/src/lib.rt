// The desk's records: a job, what the caller keeps beside the table, what a call asks and what it answers.
// The rules and what is proved of them are in specs/; there is no code here.
#![tactic(auto)]

// A job: document 01's a, C, d, x.
#[repr(C)]
#[derive(Clone, Copy, PartialEq, Eq)]
pub struct Job {
    pub start: u32,
    pub budget: u32,
    pub deadline: u32,
    pub flex: u32,
}

// What the caller keeps beside the table.
// (`count` is a number beside a lent table, no Vec: C keeps both.)
#[repr(C)]
#[derive(Clone, Copy)]
pub struct Desk {
    pub clock: u32,
    pub count: u32,
}

// A request: document 01's t, C, d.
#[derive(Clone, Copy)]
pub struct Asked {
    pub time: u32,
    pub budget: u32,
    pub deadline: u32,
}

// What a call asks for.
// (No Option: C has a call for each of the two, and None wouldn't say which.)
#[derive(Clone, Copy)]
pub enum Ask {
    Open,
    Request(Asked),
}

// What a call answers that doesn't refuse; taken: at this place, with this start.
// (No Option: an opened desk and a job taken in are two answers.)
#[derive(Clone, Copy)]
pub enum Done {
    Opened,
    Taken(usize, u32),
}
