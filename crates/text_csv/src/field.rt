//! The fields of a row, one after another.

ghost use Rattle.std.specs.Prelude.{◌≡◌, ◌≤◌, ◌++◌, [], OnOk, IfOk};
ghost use Rattle.std.specs.Option.{ForSome};
ghost use Rattle.std.specs.String.{string_bytes};
ghost use Rattle.mt_stamp.specs.Texts.{stamp_text};
ghost use Rattle.mt_op.specs.Digest.{digest_text};
ghost use Rattle.text_csv.specs.Table.{amount, gain_text, switch_text};
ghost use Rattle.text_csv.specs.Writing.{AddsField, EndsRow};

use base_text::append_decimal;
use csv::Writer;
use mt_op::{Digest, Gain};
use mt_stamp::Stamp;
use std::alloc::{AllocError, Allocator};
use text_labels::append_seconds;

/// Writes a field.
#[tactic(auto, unfolding(crate::specs::Writing::AddsField))]
pub(crate) fn put_text<A: Allocator>(
    writer: &mut Writer<Vec<u8, A>>,
    text: &[u8],
) -> Result<(), AllocError>
    ensures { OnOk result (AddsField writer.old writer.new text.now) }
{
    match writer.write_field(text) {
        Ok(()) => Ok(()),
        Err(_) => Err(AllocError),
    }
}

/// Ends a row.
#[tactic(auto, unfolding(crate::specs::Writing::EndsRow))]
pub(crate) fn end_row<A: Allocator>(writer: &mut Writer<Vec<u8, A>>) -> Result<(), AllocError>
    ensures { OnOk result (EndsRow writer.old writer.new) }
{
    match writer.end_record() {
        Ok(()) => Ok(()),
        Err(_) => Err(AllocError),
    }
}

/// Writes an empty field.
pub(crate) fn put_nothing<A: Allocator>(writer: &mut Writer<Vec<u8, A>>) -> Result<(), AllocError>
    ensures { OnOk result (AddsField writer.old writer.new []) }
{
    put_text(writer, b"")
}

// The text of a position or a length.
fn amount_text<A: Allocator>(
    alloc: A,
    rate: Option<u32>,
    frames: u32,
) -> Result<Vec<u8, A>, AllocError>
    requires { ForSome rate (λ r. 1 ≤ r) }
    ensures { IfOk result (λ text. text.items ≡ amount rate frames) }
{
    let mut text = Vec::new(alloc);
    match rate {
        Some(rate) => append_seconds(&mut text, rate, u64::from(frames))?,
        None => append_decimal(&mut text, u64::from(frames))?,
    }
    Ok(text)
}

/// Writes a position or a length.
pub(crate) fn put_amount<A: Allocator, B: Allocator>(
    alloc: &A,
    writer: &mut Writer<Vec<u8, B>>,
    rate: Option<u32>,
    frames: u32,
) -> Result<(), AllocError>
    requires { ForSome rate (λ r. 1 ≤ r) }
    ensures { OnOk result (AddsField writer.old writer.new (amount rate frames)) }
{
    let text = amount_text(alloc, rate, frames)?;
    put_text(writer, &text)
}

// The text of a gain.
fn gain_text<A: Allocator>(alloc: A, gain: Gain) -> Result<Vec<u8, A>, AllocError>
    ensures { IfOk result (λ text. text.items ≡ gain_text gain) }
{
    let mut text = Vec::new(alloc);
    append_decimal(&mut text, u64::from(gain.num()))?;
    text.extend_from_slice(b"/")?;
    append_decimal(&mut text, u64::from(gain.den()))?;
    Ok(text)
}

/// Writes a gain.
pub(crate) fn put_gain<A: Allocator, B: Allocator>(
    alloc: &A,
    writer: &mut Writer<Vec<u8, B>>,
    gain: Gain,
) -> Result<(), AllocError>
    ensures { OnOk result (AddsField writer.old writer.new (gain_text gain)) }
{
    let text = gain_text(alloc, gain)?;
    put_text(writer, &text)
}

/// Writes `on` or `off`.
pub(crate) fn put_switch<A: Allocator>(
    writer: &mut Writer<Vec<u8, A>>,
    on: bool,
) -> Result<(), AllocError>
    ensures { OnOk result (AddsField writer.old writer.new (switch_text on)) }
{
    if on {
        put_text(writer, b"on")
    } else {
        put_text(writer, b"off")
    }
}

/// Writes a stamp.
pub(crate) fn put_stamp<A: Allocator, B: Allocator>(
    alloc: &A,
    writer: &mut Writer<Vec<u8, B>>,
    stamp: Stamp,
) -> Result<(), AllocError>
    ensures { OnOk result (AddsField writer.old writer.new (stamp_text stamp)) }
{
    let mut text = String::new(alloc);
    stamp.append_text(&mut text)?;
    put_text(writer, text.as_bytes())
}

/// Writes a digest.
pub(crate) fn put_digest<A: Allocator, B: Allocator>(
    alloc: &A,
    writer: &mut Writer<Vec<u8, B>>,
    digest: Digest,
) -> Result<(), AllocError>
    ensures { OnOk result (AddsField writer.old writer.new (digest_text digest)) }
{
    let Ok(text) = digest.text(alloc) else {
        return Err(AllocError);
    };
    put_text(writer, text.as_bytes())
}
