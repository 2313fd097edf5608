// How long a trace may be.

/// The greatest number of entries of a trace.
pub const TRACE_LIMIT: usize = 4_194_304;
