//! A sink's task puts what it hands out into its file.
ghost use Rattle.std.specs.Prelude.{◌≡◌, ◌≤◌, Some, is_some, OnOk, OnErr};
ghost use Rattle.cw_types.specs.Faults.{Rose};
ghost use Rattle.cw_io.specs.Shelf.{Files};
ghost use Rattle.cw_edges.specs.Poured.{poured, IsPouredInPart};

use crate::delivery::Delivery;
use cw_io::{Failed, Outlet};

/// Puts the lines of a delivery into its file, in order, each with its end (Kafka Connect's FileStreamSinkTask). Where
/// that fails, the first of these bytes may have been put there.
pub fn pour<U: Outlet>(delivery: &Delivery, outlet: &mut U) -> Result<(), Failed>
    ensures poured { OnOk result ((held : Files) → U.files outlet.old ≡ Some held →
        U.files outlet.new ≡ Some (poured delivery.now.file delivery.now.lines held)) }
    ensures in_part { OnErr result ((held : Files) → U.files outlet.old ≡ Some held →
        (left : Files) × (U.files outlet.new ≡ Some left) ×
        IsPouredInPart delivery.now.file delivery.now.lines held left) }
    ensures told { is_some (U.files outlet.new) ≡ is_some (U.files outlet.old) }
    ensures later { U.faults outlet.old ≤ U.faults outlet.new }
    ensures rose { OnErr result (Rose (U.faults outlet.old) (U.faults outlet.new)) }
{
    for line in delivery.lines.as_slice() {
        outlet.append(&delivery.file, line.as_slice())?;
    }
    Ok(())
}
