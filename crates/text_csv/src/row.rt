//! The rows of a table.

ghost use Rattle.std.specs.Prelude.{◌≤◌, OnOk};
ghost use Rattle.std.specs.Option.{ForSome};
ghost use Rattle.text_csv.specs.Table.{line, header, track_row, clip_row, marker_row};
ghost use Rattle.text_csv.specs.Writing.{AddsText};

use crate::field::{
    end_row, put_amount, put_digest, put_gain, put_nothing, put_stamp, put_switch, put_text,
};
use csv::Writer;
use mt_sessionview::{ClipView, MarkerView, TrackView};
use mt_stamp::Stamp;
use std::alloc::{AllocError, Allocator};

/// Writes the names of the columns.
pub(crate) fn put_header<A: Allocator>(writer: &mut Writer<Vec<u8, A>>) -> Result<(), AllocError>
    ensures { OnOk result (AddsText writer.old writer.new (line header)) }
{
    put_text(writer, b"kind")?;
    put_text(writer, b"stamp")?;
    put_text(writer, b"track")?;
    put_text(writer, b"at")?;
    put_text(writer, b"offset")?;
    put_text(writer, b"length")?;
    put_text(writer, b"gain")?;
    put_text(writer, b"mute")?;
    put_text(writer, b"fade_in")?;
    put_text(writer, b"fade_out")?;
    put_text(writer, b"title")?;
    put_text(writer, b"source")?;
    end_row(writer)
}

/// Writes the row of a track.
pub(crate) fn put_track<A: Allocator, B: Allocator, C: Allocator>(
    alloc: &A,
    writer: &mut Writer<Vec<u8, B>>,
    track: &TrackView<C>,
) -> Result<(), AllocError>
    ensures { OnOk result (AddsText writer.old writer.new (line (track_row track.now))) }
{
    put_text(writer, b"track")?;
    put_stamp(alloc, writer, track.track)?;
    put_nothing(writer)?;
    put_nothing(writer)?;
    put_nothing(writer)?;
    put_nothing(writer)?;
    put_gain(alloc, writer, track.gain)?;
    put_switch(writer, track.mute)?;
    put_nothing(writer)?;
    put_nothing(writer)?;
    put_text(writer, track.title.text().as_bytes())?;
    put_nothing(writer)?;
    end_row(writer)
}

/// Writes the row of a clip, on the track of this stamp.
pub(crate) fn put_clip<A: Allocator, B: Allocator>(
    alloc: &A,
    writer: &mut Writer<Vec<u8, B>>,
    rate: Option<u32>,
    track: Stamp,
    clip: &ClipView,
) -> Result<(), AllocError>
    requires { ForSome rate (λ r. 1 ≤ r) }
    ensures { OnOk result (AddsText writer.old writer.new
        (line (clip_row rate track clip.now))) }
{
    put_text(writer, b"clip")?;
    put_stamp(alloc, writer, clip.clip)?;
    put_stamp(alloc, writer, track)?;
    put_amount(alloc, writer, rate, clip.at)?;
    put_amount(alloc, writer, rate, clip.offset)?;
    put_amount(alloc, writer, rate, clip.len)?;
    put_gain(alloc, writer, clip.gain)?;
    put_switch(writer, clip.mute)?;
    put_amount(alloc, writer, rate, clip.fade_in)?;
    put_amount(alloc, writer, rate, clip.fade_out)?;
    put_nothing(writer)?;
    put_digest(alloc, writer, clip.source)?;
    end_row(writer)
}

/// Writes the row of a marker.
pub(crate) fn put_marker<A: Allocator, B: Allocator, C: Allocator>(
    alloc: &A,
    writer: &mut Writer<Vec<u8, B>>,
    rate: Option<u32>,
    marker: &MarkerView<C>,
) -> Result<(), AllocError>
    requires { ForSome rate (λ r. 1 ≤ r) }
    ensures { OnOk result (AddsText writer.old writer.new (line (marker_row rate marker.now))) }
{
    put_text(writer, b"marker")?;
    put_stamp(alloc, writer, marker.marker)?;
    put_nothing(writer)?;
    put_amount(alloc, writer, rate, marker.at)?;
    put_nothing(writer)?;
    put_amount(alloc, writer, rate, marker.len)?;
    put_nothing(writer)?;
    put_nothing(writer)?;
    put_nothing(writer)?;
    put_nothing(writer)?;
    put_text(writer, marker.title.text().as_bytes())?;
    put_nothing(writer)?;
    end_row(writer)
}
