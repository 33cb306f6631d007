//! The exit statuses of the program. `docs/FORMATS.md` says when each is returned.

/// The output was printed, for a lawful session or a demonstration; or help or the version was.
pub const SUCCESS: u8 = 0;

/// The output was printed, for a session that breaks a rule.
pub const BROKEN_SESSION: u8 = 1;

/// The command line is wrong.
pub const BAD_COMMAND_LINE: u8 = 2;

/// There is no output, or it could not be written.
pub const FAILURE: u8 = 3;

/// Memory ran out.
pub const OUT_OF_MEMORY: u8 = 4;
