//! The markers of a session, mended by one operation more.

ghost use Rattle.std.specs.Prelude.{◌≡◌, true, false, ◌&&◌, Option, None, option_map, if◌then◌else◌, IfOk, IfSome, OnOk, OnErr, ◌⊎◌};
ghost use Rattle.std.specs.List.{list_any};
ghost use Rattle.mt_stamp.specs.Moment.{stamp_eq};
ghost use Rattle.mt_op.specs.declared.need.Role.TheVariants.{Marker as MarkerRole};
ghost use Rattle.mt_op.specs.Needs.{need_of};
ghost use Rattle.mt_op.specs.Presence.{is_present};
ghost use Rattle.mt_op.specs.Writes.{title_written, last_write};
ghost use Rattle.mt_items.specs.Noting.{is_need_met};
ghost use Rattle.mt_sessionview.specs.Content.{marker_cmp};
ghost use Rattle.mt_sessionview.specs.Noted.{markers_in};
ghost use Rattle.mt_stamp.specs.Sorting.{insert_by};
ghost use Rattle.mt_sessionview.specs.Changing.{is_marker_at};
ghost use Rattle.mt_mending.specs.Mending.{marker_entry};
ghost use Rattle.mt_mending.specs.Before.{MarkersStood, marker_position, without_stood};

use crate::read::value_or;
use mt_cells::Register;
use mt_items::Items;
use mt_op::{Need, Role, Title};
use mt_sessionview::{MarkerView, Session};
use mt_stamp::Stamp;
use std::alloc::{AllocError, Allocator};

// The title of a marker, where one of this stamp is present.
fn marker_title<A: Allocator>(items: &Items<A>, item: Stamp) -> Option<&Register<Title<A>>>
    ensures { option_map (λ r. r.now) result ≡ (if is_need_met items.now (need_of MarkerRole item)
        && is_present items.now item then last_write title_written item items.now else None) }
{
    let need = Need {
        stamp: item,
        role: Role::Marker,
    };
    if items.meets(&need) && items.is_present(item) {
        return items.title(item);
    }
    None
}

// The marker of a stamp, where one is present.
fn marker_at<A: Allocator + Clone>(
    items: &Items<A>,
    item: Stamp,
) -> Result<Option<MarkerView<A>>, AllocError>
    ensures ok { IfOk result (λ view. view ≡ marker_entry items.now item) }
{
    let Some(title) = marker_title(items, item) else {
        return Ok(None);
    };
    let Ok(title) = title.get().try_clone() else {
        return Err(AllocError);
    };
    Ok(Some(MarkerView {
        marker: item,
        at: value_or(items.position(item), 0),
        len: value_or(items.marker_length(item), 0),
        title,
    }))
}

/// The position, in frames, at which the session of the noted operations shows the marker of a stamp; `None` where it shows
/// none. Takes the logarithm of the number of items, and no memory.
pub fn marker_position<A: Allocator>(items: &Items<A>, item: Stamp) -> Option<u32>
    ensures { result ≡ marker_position items.now item }
{
    match marker_title(items, item) {
        Some(_) => Some(value_or(items.position(item), 0)),
        None => None,
    }
}

// Takes out the marker of a stamp that stood at a position.
fn take_stood<A: Allocator>(session: &mut Session<A>, stood: Option<u32>, item: Stamp)
    ensures { session.new ≡ record session.old { markers = without_stood stood item session.old.markers } }
{
    if let Some(at) = stood {
        let _taken = session.take_marker(at, item);
    }
}

// Puts a marker in: in the place of the one that stood, where it stays there, and else in its new place, after that one was taken out.
fn put_in<A: Allocator>(
    session: &mut Session<A>,
    stood: Option<u32>,
    view: MarkerView<A>,
) -> Result<(), AllocError>
    requires there { IfSome stood (λ at. list_any (is_marker_at at view.marker) session.old.markers ≡ true) }
    requires new { list_any (λ x. stamp_eq view.marker x.marker) (without_stood stood view.marker session.old.markers)
        ≡ false }
    ensures ok { OnOk result (session.new ≡ record session.old
        { markers = insert_by marker_cmp view (without_stood stood view.marker session.old.markers) }) }
    ensures left { OnErr result (session.new ≡ record session.old
        { markers = without_stood stood view.marker session.old.markers }) }
{
    if stood == Some(view.at) {
        session.set_marker(view);
        return Ok(());
    }
    take_stood(session, stood, view.marker);
    session.put_marker(view)
}

/// Mends the markers of a session after one operation more was noted: takes out the marker that is its item, from the
/// position at which it stood before (`marker_position` of the operations before), and puts in the one that the operations
/// show now; where that stands at the same position it takes its place, and nothing moves. Takes as many comparisons as the
/// logarithm of the number of markers and items, and moves what follows else. Refused
/// only as `AllocError`, where an allocation failed: the session is then as it was, or lacks the marker that stood there, and that alone.
pub fn mend_markers<A: Allocator + Clone>(
    session: &mut Session<A>,
    stood: Option<u32>,
    items: &Items<A>,
    item: Stamp,
) -> Result<(), AllocError>
    requires before { MarkersStood items.now item stood session.old.markers }
    ensures ok { OnOk result (session.new ≡ record session.old { markers = markers_in items.now }) }
    ensures left { OnErr result ((session.new ≡ session.old)
        ⊎ (session.new ≡ record session.old { markers = without_stood stood item session.old.markers })) }
{
    match marker_at(items, item)? {
        Some(view) => put_in(session, stood, view),
        None => {
            take_stood(session, stood, item);
            Ok(())
        }
    }
}
