// The front of a file: whether it is made, and what its header says.
ghost use Rattle.std.specs.Prelude.{◌≡◌, ◌≤◌, ◌<◌, List, ℕ, length, take, IfOk, OnErr};
ghost use Rattle.cw_disk.specs.Told.{Reads, Told};
ghost use Rattle.cw_types.specs.Faults.{Rose};
ghost use Rattle.cw_log.specs.Log.{byte_at, kind_of};
ghost use Rattle.cw_log.specs.Compaction.{IsFront};

use crate::Harm;
use crate::calls::length_of;
use crate::open::{harm_in, head_of, number_in};
use crate::topic::kind_number;
use cw_disk::{Disk, Failed};
use cw_types::LogName;

/// What the front of a file says.
#[derive(Clone, Copy, Debug, PartialEq, Eq, Drop)]
pub enum Front {
    /// No log: fewer than two bytes, or a first gate that is closed.
    Unmade,
    /// A log with this side number, whose header has no harm.
    Made(u64),
    /// The first harm of its header.
    Harmed(Harm),
}

/// Reads the front of a file, as that of a log of this name.
pub fn look<D: Disk>(disk: &mut D, name: LogName) -> Result<Front, Failed>
    ensures front { IfOk result (λ front. Told D.Disk disk.old (λ file. IsFront (kind_of name) front file)) }
    ensures reads { Reads D.Disk disk.old disk.new }
    ensures cause { OnErr result (Rose (D.count disk.old) (D.count disk.new)) }
{
    let size = length_of(disk)?;
    let head = head_of(disk)?;
    Ok(front_of(kind_number(name), size, &head))
}

// What a header says that has so many bytes of a file behind its begin.
fn front_of(kind: u8, size: u64, head: &[u8]) -> Front
    requires { length head.now ≡ 16 }
    ensures { (file : List ℕ) → size ≡ length file → (0 < length file → byte_at head.now 0 ≡ byte_at file 0) →
        (16 ≤ length file → head.now ≡ take 16 file) → IsFront kind result file }
{
    if size < 2 || head[0] == 0 {
        return Front::Unmade;
    }
    if size < 17 {
        return Front::Harmed(Harm::Header);
    }
    match harm_in(kind, head) {
        Some(harm) => Front::Harmed(harm),
        None => Front::Made(number_in(head)),
    }
}
