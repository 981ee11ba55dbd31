//! The differences between two logs.

ghost use Rattle.std.specs.Prelude.{◌≡◌, IfOk, IfErr, OnOk, length};
ghost use Rattle.cli_calls.specs.Comparing.{diff_by, diff_in, begins_as_frame, IsLogOf, IsNoLogOf, GaveLogOf, GaveNoLog, GaveTwoLogs, TwoLogsCause};
ghost use Rattle.cli_calls.specs.Reading.{IsRead};
ghost use Rattle.cli_calls.specs.Running.{lent, Ran};
ghost use Rattle.cli_calls.specs.Writing.{Prints};

use crate::command::{Command, Input, run};
use crate::fault::CliFault;
use crate::form::{LineForm, put_in_form};
use crate::laws::log_in_memory;
use crate::read::{read_all, refused};
use crate::take::with_sent;
use mt_latch::Latch;
use mt_logdiff::{diff_text, diff_with_fields_text, view_diff_text};
use mt_opcodec::Log;
use std::alloc::{AllocError, Allocator, Global};
use std::io::{Read, Write};

/// Which differences between two logs are printed.
#[derive(Clone, Copy, Debug, PartialEq, Eq)]
pub enum DiffForm {
    /// The operations that one of them alone has: the text of `diff_text`.
    Operations,
    /// The same, and the fields that both alone write: the text of `diff_with_fields_text`.
    Fields,
    /// The lines of the session that go and those that come: the text of `view_diff_text`.
    View,
}

// What is asked for of two logs.
fn diff_of<A: Allocator + Clone>(
    alloc: A,
    form: DiffForm,
    left: &Log<A>,
    right: &Log<A>,
) -> Result<Vec<u8, A>, AllocError>
    ensures { IfOk result (λ text. text.items ≡ diff_by form left.now right.now) }
{
    match form {
        DiffForm::Operations => Ok(diff_text(alloc, left, right)?.into_bytes()),
        DiffForm::Fields => Ok(diff_with_fields_text(alloc, left, right)?.into_bytes()),
        DiffForm::View => view_diff_text(alloc, left, right),
    }
}

// Whether bytes begin with the length of a frame.
fn begins_as_frame(bytes: &[u8]) -> bool
    ensures { result ≡ begins_as_frame bytes.now }
{
    match bytes.first() {
        Some(first) => *first == 0,
        None => false,
    }
}

// The log of the bytes of the input of this index.
fn log_of<A: Allocator + Clone>(
    alloc: A,
    frames: Global,
    index: usize,
    bytes: &[u8],
) -> Result<Log<A>, CliFault>
    ensures ok { IfOk result (IsLogOf bytes.now) }
    ensures err { IfErr result (IsNoLogOf index bytes.now) }
{
    if begins_as_frame(bytes) {
        return with_sent(alloc.clone()?, frames, Log::new(alloc), bytes);
    }
    match Log::read(alloc, bytes) {
        Ok(log) => {
            log_in_memory(&log);
            Ok(log)
        }
        Err(fault) => Err(refused(index, fault)),
    }
}

// Reads the log of the input of this index.
fn read_log_of<A: Allocator + Clone, R: Read>(
    alloc: &A,
    frames: Global,
    index: usize,
    input: &mut Latch<R>,
) -> Result<Log<A>, CliFault>
    ensures read { OnOk result (IsRead R.remaining input.new) }
    ensures ok { IfOk result (GaveLogOf R.remaining input.old) }
    ensures err { IfErr result (GaveNoLog R.remaining index input.old input.new) }
{
    match read_all(alloc, index, input) {
        Ok(bytes) => log_of(alloc.clone()?, frames, index, &bytes),
        Err(fault) => Err(fault),
    }
}

/// Two logs.
#[derive(Drop)]
pub(crate) struct TwoLogs<A: Allocator> {
    left: Log<A>,
    right: Log<A>,
}

// Two inputs, each a log or what `lack` wrote.
#[derive(Drop)]
struct LeftAndRight {
    frames: Global,
}

impl<A: Allocator + Clone> Input<A> for LeftAndRight {
    ghost use Rattle.std.specs.Prelude.{◌≡◌, length};
    ghost use Rattle.cli_calls.specs.Comparing.{GaveTwoLogs, TwoLogsCause};

    type Value = TwoLogs<A>;

    ghost fits = { λ s R inputs. length inputs ≡ 2 };

    ghost given = { λ s R remaining. GaveTwoLogs remaining };

    ghost cause = { λ s R remaining. TwoLogsCause remaining };

    fn read_from<R: Read>(
        &self,
        alloc: &A,
        inputs: &mut [Latch<R>],
    ) -> Result<TwoLogs<A>, CliFault> {
        let left = match read_log_of(alloc, self.frames, 0, &mut inputs[0]) {
            Ok(log) => log,
            Err(fault) => return Err(fault),
        };
        match read_log_of(alloc, self.frames, 1, &mut inputs[1]) {
            Ok(right) => Ok(TwoLogs { left, right }),
            Err(fault) => Err(fault),
        }
    }
}

// What is told of two logs, in lines of a form.
#[derive(Drop)]
struct Diff {
    form: DiffForm,
    lines: LineForm,
}

impl<A: Allocator + Clone> Command<A, TwoLogs<A>> for Diff {
    ghost use Rattle.cli_calls.specs.Comparing.{diff_in};
    ghost use Rattle.cli_calls.specs.Writing.{Prints};

    ghost makes = { λ diff. Prints (diff_in diff.lines diff.form) };

    fn write_value<W: Write>(
        &self,
        alloc: A,
        logs: TwoLogs<A>,
        output: &mut Latch<W>,
    ) -> Result<(), CliFault> {
        let text = diff_of(alloc.clone()?, self.form, &logs.left, &logs.right)?;
        put_in_form(alloc, self.lines, &text, output)
    }
}

/// Writes the differences between the logs of two inputs that are asked for, in a form of lines.
///
/// An input whose first byte is 0 is read as what `lack` wrote, frames of operations up to Bye: its log is
/// that of these operations alone. Every other one is read as the text of a log. `frames` is where the
/// bytes of a frame that is not whole are kept. For n operations it takes a time of n log n.
///
/// Errors, in this order: `Read` (45), `Log` (11 to 16, 52), or `Sync` (40, 38, 39, 17 or 49) of the left
/// input, with index 0, and the right one was not asked then; the same of the right input, with index 1;
/// `Write` (37) where the output's latch has failed, which then holds a prefix of the text; `Memory` (0)
/// where an allocation failed.
pub fn diff_logs<A: Allocator + Clone, R: Read, W: Write>(
    alloc: A,
    frames: Global,
    form: DiffForm,
    lines: LineForm,
    inputs: &mut [Latch<R>],
    output: &mut Latch<W>,
) -> Result<(), CliFault>
    requires two { length inputs.old ≡ 2 }
    ensures { Ran R.remaining (GaveTwoLogs R.remaining {Z = A}) (TwoLogsCause R.remaining) (Prints (diff_in lines form))
        W.contents (lent inputs.old output.old) (lent inputs.new output.new) result }
{
    run(
        &LeftAndRight { frames },
        &Diff { form, lines },
        alloc,
        inputs,
        output,
    )
}
