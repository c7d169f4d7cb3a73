//! The limits of a flat design (own).

/// The most unknowns.
pub const UNKNOWN_LIMIT: usize = 96;
/// The most values of a frame.
pub const FRAME_LIMIT: usize = 64;

pub const SIGNAL_LIMIT: usize = 1024;

pub const PROCESS_LIMIT: usize = 256;

pub const THRESHOLD_LIMIT: usize = 256;

pub const INSTANCE_LIMIT: usize = 256;
