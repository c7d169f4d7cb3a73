use step_data::Refusal;

/// Why a process makes no list of the elements of a statement.
#[derive(Clone, Copy)]
pub enum ListFault {
    Refused(Refusal),
    /// There was no memory.
    Memory,
}
