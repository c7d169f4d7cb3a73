//! The numbers of the messages by which a text, a design or a run is refused.
#![tactic(auto)]

ghost use Rattle.message_codes.specs.Agreement.{ConstantsAgree};

// ---- faults of numbers

/// A number is out of range.
pub const OVERFLOW: u8 = 1;

/// A number is divided by 0.
pub const DIVIDE_BY_ZERO: u8 = 2;

/// A function is not defined at its argument.
pub const DOMAIN_FAULT: u8 = 3;

// ---- texts

/// A byte begins no token.
pub const BAD_CHARACTER: u8 = 10;

/// A literal is malformed.
pub const BAD_LITERAL: u8 = 11;

/// A string has no end on its line.
pub const UNCLOSED_STRING: u8 = 12;

/// A byte of 128 or more.
pub const NOT_ASCII: u8 = 13;

/// A token with which no text of the grammar goes on.
pub const SYNTAX: u8 = 20;

/// A token past a limit of nesting or of operators.
pub const TOO_DEEP: u8 = 21;

// ---- values

/// A value is outside what is asked of it.
pub const RANGE: u8 = 30;

/// A result is outside its type.
pub const VALUE_OVERFLOW: u8 = 31;

/// An operator divides by 0.
pub const VALUE_DIVIDE_BY_ZERO: u8 = 32;

// ---- designs

/// A name has no declaration.
pub const UNKNOWN_NAME: u8 = 40;

/// A rule of types and ranges is broken.
pub const WRONG_TYPE: u8 = 41;

/// An expression is not static.
pub const NOT_STATIC: u8 = 42;

/// A name is declared twice.
pub const DUPLICATE: u8 = 43;

/// Two terminals have different natures.
pub const NATURE_MISMATCH: u8 = 44;

/// An entity or architecture is missing.
pub const NO_TOP: u8 = 45;

/// An association does not fit.
pub const PORT_MISMATCH: u8 = 46;

/// Two processes assign one signal.
pub const MULTIPLE_DRIVERS: u8 = 47;

/// An entity contains itself.
pub const RECURSIVE: u8 = 48;

/// A design has more of something than its limit.
pub const TOO_MANY: u8 = 49;

/// The numbers of equations and unknowns differ.
pub const UNSOLVABLE: u8 = 50;

/// The branches of a simultaneous statement have different numbers of equations.
pub const UNEQUAL_BRANCHES: u8 = 51;

// ---- solver

/// A column has no pivot.
pub const SINGULAR: u8 = 60;

/// Elimination or correction overflows.
pub const SOLVER_OVERFLOW: u8 = 61;

/// Newton's method does not converge.
pub const NO_CONVERGENCE: u8 = 62;

/// The error of a step is above its tolerance.
pub const ERROR_TOO_LARGE: u8 = 63;

/// A step would have to be below the least one.
pub const STEP_TOO_SMALL: u8 = 64;

// ---- run

/// A time is past the greatest one.
pub const TIME_OVERFLOW: u8 = 70;

/// A process executes too many statements at once.
pub const PROCESS_BUDGET: u8 = 71;

/// Too many deltas at one time.
pub const DELTA_LIMIT: u8 = 72;

/// A report or assertion of severity failure.
pub const FAILURE: u8 = 73;

/// Two break elements for one selector in one cycle.
pub const DOUBLE_BREAK: u8 = 74;

/// Too many cycles.
pub const CYCLE_LIMIT: u8 = 75;

/// Too many attempts.
pub const ATTEMPT_LIMIT: u8 = 76;

/// The constants above are the numbers of the specification. It is proved, and does nothing when it runs.
pub fn constants_agree()
    ensures { ConstantsAgree }
{}
