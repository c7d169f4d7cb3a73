/// How many levels may be open one in another: parentheses, calls and statements.
pub const MOST_LEVELS: u32 = 64;

/// How many operators, calls and attributes an outermost expression may have.
pub const MOST_OPERATORS: u32 = 256;
