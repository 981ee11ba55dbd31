//! Values of fields that have two parts.

use mt_stamp::Stamp;

/// Where a clip is: its track, and the frame of the session at which it begins, any `u32`.
#[derive(Clone, Copy, Debug, PartialEq, Eq, PartialOrd, Ord)]
pub struct Placement {
    pub track: Stamp,
    pub at: u32,
}

/// What a clip plays of its recording: `len` frames from frame `offset` on, each any `u32`; an
/// operation gives a `len` of at least 1.
#[derive(Clone, Copy, Debug, PartialEq, Eq, PartialOrd, Ord)]
pub struct TrimRange {
    pub offset: u32,
    pub len: u32,
}

/// Over how many frames a clip fades in from its first one on, and out to its last one, each any
/// `u32`; an operation gives at most `LONGEST_FADE`. 0 for no fade.
#[derive(Clone, Copy, Debug, PartialEq, Eq, PartialOrd, Ord)]
pub struct FadeLengths {
    pub fade_in: u32,
    pub fade_out: u32,
}
