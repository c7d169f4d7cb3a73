//! Why there is no design.
/// A text is refused, with this note, or memory ran out.
#[derive(Drop)]
pub enum Unread {
    Refused(Vec<u8>),
    Memory,
}
