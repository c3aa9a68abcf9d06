//! How a call ends. The numbers are those of include/pxplanes.h, and of the program where it has them.

use px_commands::{PIXEL_BITS, WIDE_PIXEL_BITS};

/// What was asked is in the buffers.
pub const OK: u32 = 0;

/// The words name no command.
pub const USAGE: u32 = 2;

/// The words of a line are bad, or the text has no `end`.
pub const MALFORMED: u32 = 3;

/// A number or a count passes its limit.
pub const LIMIT: u32 = 4;

/// Memory was wanted and not given.
pub const MEMORY: u32 = 7;

/// A buffer is too small.
pub const NO_ROOM: u32 = 8;

/// The clocks that are asked for lie past the last.
pub const NO_CLOCK: u32 = 9;

/// A grid has not so many columns or rows.
pub const NO_GRID: u32 = 10;

/// A word packs no microinstruction.
pub const NO_MICRO: u32 = 11;

/// The operations that are asked for lie past the last.
pub const NO_OPERATION: u32 = 12;

/// A window has not so many columns or rows, or lies past the widest picture.
pub const NO_WINDOW: u32 = 13;

/// The scene has no face of that number.
pub const NO_FACE: u32 = 14;

/// The memory bits of a pixel of the array that draws, as of the program's own but for `shadow`.
pub const BITS: usize = PIXEL_BITS;

/// Those of the array that finds shadows.
pub const WIDE_BITS: usize = WIDE_PIXEL_BITS;
