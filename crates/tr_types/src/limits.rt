// How many processes and threads there may be. What speaks of numbers of either cites these.

/// Processes have the numbers 0 to 63.
pub const PROCESSES: u8 = 64;

/// Threads have the numbers 0 to 255.
pub const THREADS: u16 = 256;
