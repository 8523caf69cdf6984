// The limits of a script. Definitions and code take them from here.

/// The greatest number of bytes in a script.
pub const MOST_BYTES: u64 = 268_435_456;

/// The greatest number of commands in a script.
pub const MOST_COMMANDS: usize = 1_000_000;

/// The greatest number of bytes in a line, without its line feed and the carriage return before it.
pub const MOST_LINE: usize = 200;

/// The greatest number of digits in a number.
pub const MOST_DIGITS: usize = 20;
