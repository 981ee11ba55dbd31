//! What holds of titles and of refusals: each law is the contract of a small function, which does
//! nothing or only compares.

ghost use Rattle.std.specs.Prelude.{◌≡◌, ◌↔◌, IsTrue};
ghost use Rattle.text_cues.specs.Laws.{LabelsBecomeTitles, TitlesStay, LinesAsk};

use crate::fault::CuesFault;
use mt_script::laws::numbers;

/// Whatever the bytes of a label are, the title that is made of them is one.
pub fn labels_become_titles()
    ensures { LabelsBecomeTitles }
{}

/// A label that is a title stays as it is.
pub fn titles_stay()
    ensures { TitlesStay }
{}

/// As a line of a script, whatever the lines before it made, the first line of a marker asks for
/// that marker, and the second for the length of the marker that the line of its number made.
pub fn lines_ask()
    ensures { LinesAsk }
{
    numbers();
}

/// Refusals are equal where they are of one case and name the same cue point.
pub fn equal_cues_faults(fault: &CuesFault, other: &CuesFault) -> bool
    ensures { IsTrue result ↔ (fault.now ≡ other.now) }
{
    fault == other
}
