// Document 01's limits and the records' widths, each once: specs/Limits.antt has the same names.

pub const MOST_PARTITIONS: usize = 16;

pub const MOST_TASKS: usize = 128;

pub const LONGEST: usize = 4096; // of a frame, a cycle, and of runs

// (`as`: no conversion but this one is const.)
pub const LONGEST_PERIOD: u16 = LONGEST as u16;

pub const FINEST_SHARE: u16 = 1000;

pub const MOST_GRANULE: usize = 16;

pub const NEWEST_EDITION: usize = 2;

pub const PLACES: usize = 64;

pub const LATEST: u32 = 1000000;

pub const PART_WIDTH: usize = 3;

pub const TASK_WIDTH: usize = 4;

pub const RUN_WIDTH: usize = 2;

pub const QUESTION_WIDTH: usize = 3;

pub const ROW_WIDTH: usize = 4;

pub const NUMBER_BYTES: usize = 2;

pub const HEAD_BYTES: usize = 16;

pub const PART_NUMBERS: usize = PART_WIDTH * MOST_PARTITIONS;

pub const TASK_NUMBERS: usize = TASK_WIDTH * MOST_TASKS;

pub const RUN_NUMBERS: usize = RUN_WIDTH * LONGEST;

pub const LONGEST_FILE: usize = HEAD_BYTES
    + NUMBER_BYTES * (PART_NUMBERS + TASK_NUMBERS + RUN_NUMBERS);

// No line of a listing is longer, in bytes, and no listing: a line for the frame, each partition and each task.
pub const LONGEST_LINE: usize = 128;

pub const LONGEST_LISTING: usize = (1 + MOST_PARTITIONS + MOST_TASKS) * LONGEST_LINE;

// No page of a task is longer, in bytes: a line for each point, and the task, the columns' names and the sentence.
pub const LONGEST_WHY: usize = (3 + LONGEST) * LONGEST_LINE;
