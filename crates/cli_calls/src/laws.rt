//! The headline, and when refusals are equal: each law is the contract of a small function, which does nothing or only compares.

ghost use Rattle.std.specs.Prelude.{◌≡◌, ◌↔◌, ℕ, IsTrue, List, Result};
ghost use Rattle.mt_latch.specs.Latch.{Latched};
ghost use Rattle.mt_opcodec.specs.IsLog.{IsLog};
ghost use Rattle.mt_opcodec.specs.Sets.{IsSet};
ghost use Rattle.mt_cuewrite.specs.Head.{HeadText};
ghost use Rattle.mt_render.specs.Layout.{Layout};
ghost use Rattle.cli_calls.specs.declared.fault.CliFault.{CliFault as Fault};
ghost use Rattle.cli_calls.specs.Bouncing.{RenderInputs, RendersLogs, GaveLogsAndWaves, RenderCause, AreInputsRead};
ghost use Rattle.cli_calls.specs.Info.{Informs};
ghost use Rattle.cli_calls.specs.Joining.{GaveUnion, UnionFails};
ghost use Rattle.cli_calls.specs.Laying.{LaidIsTold};
ghost use Rattle.cli_calls.specs.Promises.{WritesUnion, WritesFile, WritesInfo};
ghost use Rattle.cli_calls.specs.Reading.{text_of};
ghost use Rattle.cli_calls.specs.Running.{Lent, Ran, RanOn};
ghost use Rattle.cli_calls.specs.Viewing.{log_view};
ghost use Rattle.cli_calls.specs.Writing.{Prints, Wrote};
ghost use Rattle.cli_calls.specs.Headline.{SameAgree, SameIsTold, SameIsRendered, SameIsShown, OneIsItsUnion, MergedIsSame};

use crate::fault::CliFault;
use mt_opcodec::Log;
use mt_opcodec::laws::logs_in_memory;
use std::alloc::Allocator;
use std::io::{Read, Write};

/// Replicas with the same operations, spread over logs, ordered and repeated as may be: the logs of both agree, or clash on both sides. Where they
/// agree both have one union, and so one session, one text of it, one text of the operations, and one log that is merged of them; and over recordings that are the
/// same under the digests of the session's audible clips, in one format and with one head, one file is written of both, byte for byte, or both are
/// refused for the same. Editors whose logs have the same operations lend one session, and of one log the same is told as of an editor that has it;
/// and a log that is merged of others has their operations, and can stand for them.
///
/// That each log is the set of its operations is asked for; of a log in memory `log_in_memory` says it, and so of each log that a
/// command has read, whose bytes are those of this log alone (`mt_opcodec::laws::one_log`).
pub fn headline()
    ensures agree { SameAgree }
    ensures told { SameIsTold }
    ensures rendered { SameIsRendered }
    ensures shown { SameIsShown }
    ensures one_log { OneIsItsUnion }
    ensures merged { MergedIsSame }
{}

/// A log in memory is one that bytes can encode, and so the set of its operations: each is valid, stands
/// under its own dot and names older ones.
pub fn log_in_memory<A: Allocator>(log: &Log<A>)
    ensures is_log { IsLog log.now }
    ensures is_set { IsSet log.now }
{
    logs_in_memory(log);
}

/// The line of a recording that is laid on a track that a stamp names is what a log tells of an operation that adds a clip of the whole recording: so it is
/// a line of a script (`mt_script::laws::acts_read_back`), which adds that clip.
pub fn laid_clips()
    ensures { LaidIsTold }
{}

/// Refusals of a command are equal where they are of one case and say the same: the same index, the same dot, and the same fault inside.
pub fn equal_cli_faults(fault: &CliFault, other: &CliFault) -> bool
    ensures { IsTrue result ↔ (fault.now ≡ other.now) }
{
    fault == other
}

/// What `view_logs` promises: if it returns Ok, it has written the text of the session of the union
/// of the inputs' logs, and nothing else. `Merge` means that the logs conflict, `Write` that the
/// output has failed; after any other fault nothing was written.
pub fn view_logs<R: Read, W: Write>()
    ensures { (before after : Lent (List (Latched R)) (Latched W)) (result : Result (Unit {0}) Fault)
        → Ran R.remaining (GaveUnion R.remaining) (UnionFails R.remaining) (Prints log_view) W.contents before after result
        → WritesUnion R.remaining W.contents log_view before after result }
{}

/// What `merge_logs` promises: if it returns Ok, it has written the text of the log of the union of
/// the inputs' logs, and nothing else. `Merge` means that the logs conflict, `Write` that the output
/// has failed; after any other fault nothing was written.
pub fn merge_logs<R: Read, W: Write>()
    ensures { (before after : Lent (List (Latched R)) (Latched W)) (result : Result (Unit {0}) Fault)
        → Ran R.remaining (GaveUnion R.remaining) (UnionFails R.remaining) (Prints text_of) W.contents before after result
        → WritesUnion R.remaining W.contents text_of before after result }
{}

/// What `bounce_logs` promises: if it returns Ok, it has written the file of the session of the union
/// of the logs over the recordings, and nothing else. `Mix` means that the programme cannot be mixed
/// or that its file is too long, `Write` that the output has failed; after any other fault nothing
/// was written.
pub fn bounce_logs<R: Read, W: Write>()
    ensures { (layout : Layout) (head : HeadText) (before after : Lent (RenderInputs R) (Latched W)) (result : Result (Unit {0}) Fault)
        → RanOn (GaveLogsAndWaves R.remaining) (RenderCause R.remaining) (AreInputsRead R.remaining) (RendersLogs layout head)
        W.contents before after result
        → WritesFile R.remaining W.contents layout head before after result }
{}

/// What `write_info` promises: if it returns Ok, the bytes are a wave file, and it has written the
/// file's text, and nothing else. `Source` means that the bytes are not a wave file, `Write` that the
/// output has failed; after any other fault nothing was written.
pub fn write_info<W: Write>()
    ensures { (bytes : List ℕ) (before after : Latched W) (result : Result (Unit {0}) Fault)
        → Wrote W.contents (Informs bytes) before after result
        → WritesInfo W.contents bytes before after result }
{}
