//! Outlets for the lines of sinks.
ghost use Rattle.std.specs.Prelude.{◌≡◌, ℕ, ◌≤◌, Some, Option, is_some, OnOk, OnErr};
ghost use Rattle.cw_types.specs.Faults.{Rose};
ghost use Rattle.cw_io.specs.Shelf.{Files};
ghost use Rattle.cw_io.specs.Outlet.{appended, line_bytes, IsAppendedInPart};

use crate::traits::Failed;
use cw_types::Name;

/// Where sink tasks put their lines, as a folder of files. Kafka Connect's FileStreamSinkTask writes each
/// record so: its value, and a line's end, at the end of the task's file.
pub trait Outlet {
    /// Its files, where it tells them, each name once and in the order of their bytes.
    ghost files: { Self → Option Files };

    /// How many of its calls failed. A count at the type's end stays there.
    ghost faults: { Self → ℕ };

    /// Puts a line, and its end, at the end of the file of this name, which is made where there is none.
    /// Where it fails, a first part of these bytes may have been put there.
    fn append(&mut self, file: &Name, line: &[u8]) -> Result<(), Failed>
        ensures appended { OnOk result ((held : Files) → files self.old ≡ Some held →
            files self.new ≡ Some (appended file.now (line_bytes line.now) held)) }
        ensures in_part { OnErr result ((held : Files) → files self.old ≡ Some held →
            (left : Files) × (files self.new ≡ Some left) ×
            IsAppendedInPart file.now (line_bytes line.now) held left) }
        ensures told { is_some (files self.new) ≡ is_some (files self.old) }
        ensures later { faults self.old ≤ faults self.new }
        ensures rose { OnErr result (Rose (faults self.old) (faults self.new)) };
}
