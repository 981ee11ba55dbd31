//! The broadcast extension.

use crate::number::{u16_at, u32_at};
use crate::text::text;
use crate::wave::Wave;

/// The broadcast extension (EBU Tech 3285): what the chunk `bext` says. Each text is a slice of the
/// file, which ends before its first zero byte; no text is tested for its characters.
#[derive(Clone, Copy, Debug, PartialEq, Eq)]
pub struct Bext<'a> {
    /// The sound, in at most 256 bytes.
    pub description: &'a [u8],
    /// Who made it, in at most 32 bytes.
    pub originator: &'a [u8],
    /// Its maker's name for it, in at most 32 bytes.
    pub reference: &'a [u8],
    /// The day, in at most 10 bytes.
    pub date: &'a [u8],
    /// The time of day, in at most 8 bytes.
    pub time: &'a [u8],
    /// How many samples passed from midnight to the first sample.
    pub time_reference: u64,
    /// The version of the extension.
    pub version: u16,
    /// How the sound was coded, of any length.
    pub history: &'a [u8],
}

impl<'a> Bext<'a> {
    ghost use Rattle.std.specs.Prelude.{◌≡◌};
    ghost use Rattle.std.specs.Option.{option_map};
    ghost use Rattle.mt_bwfread.specs.Extension.{extension, extension_in};

    // What the content of a chunk `bext` says, if it is long enough.
    #[tactic(auto, unfolding(crate::specs::Extension::extension_in))]
    fn read(bext: &'a [u8]) -> Option<Bext<'a>>
        ensures { option_map extension result ≡ extension_in bext.now }
    {
        if bext.len() < 602 {
            return None;
        }
        let low = u32_at(bext, 338);
        let high = u32_at(bext, 342);
        Some(Bext {
            description: text(&bext[0..256]),
            originator: text(&bext[256..288]),
            reference: text(&bext[288..320]),
            date: text(&bext[320..330]),
            time: text(&bext[330..338]),
            time_reference: u64::from(low) + 4294967296 * u64::from(high),
            version: u16_at(bext, 346),
            history: text(&bext[602..]),
        })
    }
}

impl<'a> Wave<'a> {
    ghost use Rattle.std.specs.Prelude.{◌≡◌};
    ghost use Rattle.std.specs.Option.{option_map};
    ghost use Rattle.mt_bwfread.specs.Extension.{extension, bext_of};

    /// The broadcast extension, if the file has one: its first chunk `bext`, unless that is shorter
    /// than 602 bytes. Each call looks for the ends of the texts anew, the history's among them,
    /// which may be as long as the file.
    #[tactic(auto, unfolding(crate::specs::Extension::bext_of))]
    pub fn bext(&self) -> Option<Bext<'a>>
        ensures { option_map extension result ≡ bext_of self.now }
    {
        Bext::read(self.bext?)
    }
}
