// The numbers of the format that keys, points and notes keep to. Definitions and code take them from here.

use crate::points::Coord;

/// The greatest key of a record.
pub const MOST_KEY: u64 = u64::MAX;

/// The greatest coordinate of a point.
pub const MOST_COORDINATE: Coord = Coord::MAX;

/// The greatest number of bytes in a note.
pub const NOTE_ROOM: usize = 64;
