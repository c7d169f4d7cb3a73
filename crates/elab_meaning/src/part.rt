//! A part of a declaration or of a statement.

/// What a part of a declaration or statement is found to be.
#[derive(Drop)]
pub enum Part<T> {
    Kept(T),
    /// It breaks a rule of the declaration or statement that holds it.
    Wrong,
    /// Something in it breaks a rule, which is noted already. Nothing is said of what holds it.
    Hidden,
}
