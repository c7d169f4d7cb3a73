//! Tokens are one design file or have one first fault.
ghost use Rattle.file_laws.specs.Once.{ReadOnce};

/// Tokens are one design file within the limits, or have one first fault.
pub fn files_are_read_once()
    ensures { ReadOnce }
{}
