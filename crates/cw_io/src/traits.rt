//! Sources and sinks of bytes.
ghost use Rattle.std.specs.Prelude.{◌≡◌, ℕ, ◌≤◌, ◌<◌, List, Option, IfOk, OnOk, OnErr, length, take};
ghost use Rattle.cw_types.specs.Faults.{Rose};
ghost use Rattle.cw_io.specs.Told.{with_front, with_back, IsAtEnd};
ghost use Rattle.cw_io.specs.Written.{IsWrittenInPart};

use thiserror::Error;

/// A call to the outside failed. Its object's count of faults rose.
#[derive(Clone, Copy, Debug, PartialEq, Eq, Drop, Error)]
#[error("a call to the outside failed")]
pub struct Failed;

/// Where bytes come from, as standard input.
pub trait Source {
    /// The bytes that are left to read, where it tells them.
    ghost left: { Self → Option (List ℕ) };

    /// How many of its calls failed. A count at the type's end stays there.
    ghost faults: { Self → ℕ };

    /// Reads some of the bytes that are left into the front of a piece. Only at the end of the input
    /// does it read none into a piece that isn't empty.
    fn read(&mut self, into: &mut [u8]) -> Result<usize, Failed>
        ensures fits { IfOk result (λ n. n ≤ length into.old) }
        ensures taken { IfOk result (λ n. left self.old ≡ with_front (take n into.new) (left self.new)) }
        ensures at_end { result ≡ Ok 0 → 0 < length into.old → IsAtEnd (left self.old) }
        ensures kept { OnErr result (left self.new ≡ left self.old) }
        ensures later { faults self.old ≤ faults self.new }
        ensures rose { OnErr result (Rose (faults self.old) (faults self.new)) };
}

/// Where bytes go, as standard output.
pub trait Sink {
    /// The bytes that it took so far, where it tells them.
    ghost held: { Self → Option (List ℕ) };

    /// How many of its calls failed. A count at the type's end stays there.
    ghost faults: { Self → ℕ };

    /// Takes some bytes from the front of a piece: at least one, if the piece isn't empty.
    fn write(&mut self, from: &[u8]) -> Result<usize, Failed>
        ensures fits { IfOk result (λ n. n ≤ length from.now) }
        ensures some { IfOk result (λ n. 0 < length from.now → 0 < n) }
        ensures added { IfOk result (λ n. held self.new ≡ with_back (take n from.now) (held self.old)) }
        ensures kept { OnErr result (held self.new ≡ held self.old) }
        ensures later { faults self.old ≤ faults self.new }
        ensures rose { OnErr result (Rose (faults self.old) (faults self.new)) };
}

/// Writes all of the bytes, in as many calls as the sink wants. Where a call fails, some first part of
/// the bytes was written.
pub fn write_all<O: Sink>(output: &mut O, bytes: &[u8]) -> Result<(), Failed>
    ensures whole { OnOk result (O.held output.new ≡ with_back bytes.now (O.held output.old)) }
    ensures in_part { OnErr result (IsWrittenInPart bytes.now (O.held output.old) (O.held output.new)) }
    ensures later { O.faults output.old ≤ O.faults output.new }
    ensures rose { OnErr result (Rose (O.faults output.old) (O.faults output.new)) }
{
    let mut at = 0;
    while at < bytes.len() {
        at += output.write(&bytes[at..])?;
    }
    Ok(())
}
