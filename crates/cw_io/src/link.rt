//! Links: connections of which one side reads and writes.
ghost use Rattle.std.specs.Prelude.{◌≡◌, ℕ, ◌≤◌, ◌<◌, List, Option, IfOk, OnOk, OnErr, length, take};
ghost use Rattle.cw_types.specs.Faults.{Rose};
ghost use Rattle.cw_io.specs.Told.{with_front, with_back, IsAtEnd};
ghost use Rattle.cw_io.specs.Written.{IsWrittenInPart};

use crate::traits::Failed;

/// A connection with a peer, as an accepted TCP stream. Its two directions are apart: what is read
/// changes nothing of what was written, and the other way round.
pub trait Link {
    /// The bytes that are left to read, where it tells them.
    ghost left: { Self → Option (List ℕ) };

    /// The bytes that were written so far, where it tells them.
    ghost held: { Self → Option (List ℕ) };

    /// How many of its calls failed, in both directions. A count at the type's end stays there.
    ghost faults: { Self → ℕ };

    /// Reads some of the bytes that are left into the front of a piece. Only at the end of the peer's
    /// bytes does it read none into a piece that isn't empty.
    fn read(&mut self, into: &mut [u8]) -> Result<usize, Failed>
        ensures fits { IfOk result (λ n. n ≤ length into.old) }
        ensures taken { IfOk result (λ n. left self.old ≡ with_front (take n into.new) (left self.new)) }
        ensures at_end { result ≡ Ok 0 → 0 < length into.old → IsAtEnd (left self.old) }
        ensures kept { OnErr result (left self.new ≡ left self.old) }
        ensures apart { held self.new ≡ held self.old }
        ensures later { faults self.old ≤ faults self.new }
        ensures rose { OnErr result (Rose (faults self.old) (faults self.new)) };

    /// Writes some bytes from the front of a piece: at least one, if the piece isn't empty.
    fn write(&mut self, from: &[u8]) -> Result<usize, Failed>
        ensures fits { IfOk result (λ n. n ≤ length from.now) }
        ensures some { IfOk result (λ n. 0 < length from.now → 0 < n) }
        ensures added { IfOk result (λ n. held self.new ≡ with_back (take n from.now) (held self.old)) }
        ensures kept { OnErr result (held self.new ≡ held self.old) }
        ensures apart { left self.new ≡ left self.old }
        ensures later { faults self.old ≤ faults self.new }
        ensures rose { OnErr result (Rose (faults self.old) (faults self.new)) };
}

/// Writes all of the bytes to a link, in as many calls as it wants. Where a call fails, some first part
/// of the bytes was written.
pub fn send_all<L: Link>(link: &mut L, bytes: &[u8]) -> Result<(), Failed>
    ensures whole { OnOk result (L.held link.new ≡ with_back bytes.now (L.held link.old)) }
    ensures in_part { OnErr result (IsWrittenInPart bytes.now (L.held link.old) (L.held link.new)) }
    ensures apart { L.left link.new ≡ L.left link.old }
    ensures later { L.faults link.old ≤ L.faults link.new }
    ensures rose { OnErr result (Rose (L.faults link.old) (L.faults link.new)) }
{
    let mut at = 0;
    while at < bytes.len() {
        at += link.write(&bytes[at..])?;
    }
    Ok(())
}
