//! The places of the track order.

ghost use Rattle.std.specs.Prelude.{◌≡◌, None, ◌∷◌, List, OnOk};
ghost use Rattle.std.specs.Map.{lookup};
ghost use Rattle.mt_stamp.specs.Moment.{stamp_eq};
ghost use Rattle.mt_op.specs.Operation.{Operation};
ghost use Rattle.mt_items.specs.All.{HoldsPlaces};

use mt_op::{Op, Role};
use mt_stampmap::StampMap;
use std::alloc::{AllocError, Allocator};

// Notes the place that an operation gives, where it gives one.
pub(crate) fn note<A: Allocator + Clone>(
    places: &mut StampMap<(), A>,
    op: &Op<A>,
) -> Result<(), AllocError>
    requires new { lookup (stamp_eq op.now.stamp) places.old ≡ None }
    ensures ok { OnOk result ((ops : List Operation) → HoldsPlaces ops places.old → HoldsPlaces (op.now ∷ ops) places.new) }
{
    if op.fits(&Role::Place) {
        places.insert(op.stamp(), ())?;
    }
    Ok(())
}
