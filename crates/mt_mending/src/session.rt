//! A session, mended by one operation more.

ghost use Rattle.std.specs.Prelude.{◌≡◌, OnOk, OnErr};
ghost use Rattle.mt_mending.specs.Mending.{session_in};
ghost use Rattle.mt_mending.specs.Before.{ArePlacesOf, SessionStood, LacksAtMost, stood_in};

use crate::before::Stood;
use crate::clip::{mend_clips, placed_clip};
use crate::marker::{marker_position, mend_markers};
use crate::mend_track::mend_tracks;
use mt_items::Items;
use mt_op::{Need, Role};
use mt_sessionview::Session;
use mt_stamp::Stamp;
use mt_tracklist::TrackList;
use std::alloc::{AllocError, Allocator};

/// Where the item of a stamp stands in the session of the noted operations, for `mend` after one operation more about it. Takes
/// the logarithm of the number of items, and no memory.
pub fn stood<A: Allocator>(items: &Items<A>, item: Stamp) -> Stood
    ensures { result ≡ stood_in items.now item }
{
    let added = Need {
        stamp: item,
        role: Role::Item,
    };
    Stood {
        marker: marker_position(items, item),
        clip: placed_clip(items, item),
        known: items.meets(&added),
    }
}

/// Mends a session after one operation more was noted: takes the entry of its item out where it stood before (`stood` of the
/// operations before), and puts in the one that they show now. `list` has the places of all of them (`add_place`), and the
/// number held stays. Takes as long as `mend_tracks`, `mend_markers` or `mend_clips`, by what the item is. Refused only as
/// `AllocError`, where an allocation failed: the session is then as it was, or lacks the entry that stood there, and that alone.
pub fn mend<A: Allocator + Clone>(
    alloc: &A,
    session: &mut Session<A>,
    stood: Stood,
    items: &Items<A>,
    list: &TrackList<A>,
    item: Stamp,
) -> Result<(), AllocError>
    requires stood { SessionStood items.now item stood session.old }
    requires places { ArePlacesOf list.now items.now }
    ensures ok { OnOk result (session.new ≡ session_in items.now session.old.held) }
    ensures left { OnErr result (LacksAtMost item stood session.old session.new) }
{
    let track = Need {
        stamp: item,
        role: Role::Track,
    };
    if items.meets(&track) {
        return mend_tracks(alloc, session, stood.known, items, list, item);
    }
    let marker = Need {
        stamp: item,
        role: Role::Marker,
    };
    if items.meets(&marker) {
        return mend_markers(session, stood.marker, items, item);
    }
    mend_clips(session, stood.clip, items, item)
}
