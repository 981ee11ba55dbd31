//! Cue points.

use crate::number::u32_at;
use crate::wave::Wave;

/// A cue point.
#[derive(Clone, Copy, Debug, PartialEq, Eq)]
pub struct Point {
    /// The number by which lengths and labels name it.
    pub name: u32,
    /// Its frame, counted from 0. It may lie behind the last frame.
    pub at: u32,
}

/// A cue point with its length and its label.
#[derive(Clone, Copy, Debug, PartialEq, Eq)]
pub struct Cue<'a> {
    /// The number by which lengths and labels name it.
    pub name: u32,
    /// Its frame, counted from 0. It may lie behind the last frame.
    pub at: u32,
    /// How many frames from there on it means, if a chunk `ltxt` says so: the first length of its
    /// name. It may be 0, and they may pass the last frame.
    pub length: Option<u32>,
    /// The text of the first label of its name: a slice of the file, not tested for its characters.
    pub label: Option<&'a [u8]>,
}

impl<'a> Wave<'a> {
    ghost use Rattle.std.specs.Prelude.{◌≡◌, length, slice_get};
    ghost use Rattle.std.specs.Option.{option_map};
    ghost use Rattle.mt_bwfread.specs.Cues.{points_of, cues_of, cue_text};

    /// The number of cue points: those of the first chunk `cue ` that are whole.
    #[inline]
    pub fn cue_count(&self) -> u32
        ensures points { result ≡ length (points_of self.now) }
        ensures cues { result ≡ length (cues_of self.now) }
    {
        self.point_count
    }

    /// The cue point of this index, from 0 on, without its length and its label; none from
    /// `cue_count` on. Takes the same short time for each.
    pub fn point(&self, index: u32) -> Option<Point>
        ensures { result ≡ slice_get (points_of self.now) index }
    {
        if index >= self.cue_count() {
            return None;
        }
        let at = 24 * index as usize;
        Some(Point {
            name: u32_at(self.points, at),
            at: u32_at(self.points, at + 20),
        })
    }

    /// The cue of this index, from 0 on; none from `cue_count` on. Each call walks over the chunks
    /// of the file and its lists for the length, and once more for the label: for all cues take
    /// `point`, `lengths` and `labels`, which walk once.
    pub fn cue(&self, index: u32) -> Option<Cue<'a>>
        ensures { option_map cue_text result ≡ slice_get (cues_of self.now) index }
    {
        let point = self.point(index)?;
        Some(Cue {
            name: point.name,
            at: point.at,
            length: self.length(point.name),
            label: self.label(point.name),
        })
    }
}
