// Which side of a pair is the chosen one.
ghost use Rattle.std.specs.Prelude.{◌≡◌, ◌<◌, List, ℕ, IfOk, IfErr, OnOk, MatchResult};
ghost use Rattle.cw_disk.specs.Told.{Reads, Settled, Told};
ghost use Rattle.cw_types.specs.Faults.{Rose};
ghost use Rattle.cw_log.specs.Log.{OnCause, kind_of};
ghost use Rattle.cw_log.specs.Compaction.{IsFront, IsHeaded};
ghost use Rattle.cw_log.specs.declared.fault.OpenCause.TheVariants.{Damaged, Failed};
ghost use Rattle.cw_pair.specs.Pair.{IsHeadDamaged, IsRight};
ghost use Rattle.cw_pair.specs.State.{faults_of};

use cw_disk::Disk;
use cw_log::{Front, Harm, OpenCause, look};
use cw_types::LogName;

/// A side that doesn't open, and why.
#[derive(Clone, Copy, Drop)]
pub(crate) struct SideFault {
    pub(crate) side: u8,
    pub(crate) cause: OpenCause,
}

// Syncs the disk of a side.
fn settle<D: Disk>(disk: &mut D, side: u8) -> Result<(), SideFault>
    ensures settled { OnOk result (Settled D.Disk disk.new) }
    ensures reads { Reads D.Disk disk.old disk.new }
    ensures cause { IfErr result (λ fault. (fault.side ≡ side) × (fault.cause ≡ Failed) ×
        Rose (D.count disk.old) (D.count disk.new)) }
{
    match disk.sync() {
        Ok(()) => Ok(()),
        Err(_) => Err(SideFault {
            side,
            cause: OpenCause::Failed,
        }),
    }
}

// The front of the disk of a side.
fn front<D: Disk>(disk: &mut D, name: LogName, side: u8) -> Result<Front, SideFault>
    ensures front { IfOk result (λ front. Told D.Disk disk.old (λ file. IsFront (kind_of name) front file)) }
    ensures reads { Reads D.Disk disk.old disk.new }
    ensures cause { IfErr result (λ fault. (fault.side ≡ side) × (fault.cause ≡ Failed) ×
        Rose (D.count disk.old) (D.count disk.new)) }
{
    match look(disk, name) {
        Ok(front) => Ok(front),
        Err(_) => Err(SideFault {
            side,
            cause: OpenCause::Failed,
        }),
    }
}

// The harm of a side, at its begin.
fn harmed(side: u8, harm: Harm) -> SideFault
    ensures { (result.side ≡ side) × (result.cause ≡ Damaged 0 harm) }
{
    SideFault {
        side,
        cause: OpenCause::Damaged { at: 0, harm },
    }
}

// Whether side b is the chosen one, by the fronts of both.
fn judge(a: Front, b: Front) -> Result<bool, SideFault>
    ensures right { (kind : ℕ) (file_a file_b : List ℕ) → IsFront kind a file_a → IsFront kind b file_b →
        MatchResult result (λ on_b. IsRight kind on_b file_a file_b)
        (λ fault. OnCause (λ at harm. IsHeadDamaged kind file_a file_b fault.side harm) ⊥ ⊥ fault.cause) }
    ensures start { IfErr result (λ fault. OnCause (λ at harm. at ≡ 0) ⊥ ⊥ fault.cause) }
{
    match a {
        Front::Harmed(harm) => Err(harmed(0, harm)),
        Front::Made(number) => match b {
            Front::Harmed(harm) => Err(harmed(1, harm)),
            Front::Made(other) => compare(number, other),
            Front::Unmade => Ok(false),
        },
        Front::Unmade => match b {
            Front::Harmed(harm) => Err(harmed(1, harm)),
            Front::Made(_) => Ok(true),
            Front::Unmade => Ok(false),
        },
    }
}

// Whether side b is the chosen one, by the numbers of both.
fn compare(a: u64, b: u64) -> Result<bool, SideFault>
    ensures right { (kind : ℕ) (file_a file_b : List ℕ) → IsHeaded kind a file_a → IsHeaded kind b file_b →
        MatchResult result (λ on_b. IsRight kind on_b file_a file_b)
        (λ fault. OnCause (λ at harm. IsHeadDamaged kind file_a file_b fault.side harm) ⊥ ⊥ fault.cause) }
    ensures start { IfErr result (λ fault. OnCause (λ at harm. at ≡ 0) ⊥ ⊥ fault.cause) }
{
    if a == b {
        return Err(harmed(1, Harm::SameSide));
    }
    Ok(a < b)
}

/// Syncs both disks and tells whether side b is the chosen one: that with the greatest number, or side a where
/// neither is made.
pub(crate) fn choose<D: Disk>(a: &mut D, b: &mut D, name: LogName) -> Result<bool, SideFault>
    ensures chosen { IfOk result (λ on_b. Told D.Disk a.old (λ file_a. Told D.Disk b.old
        (λ file_b. IsRight (kind_of name) on_b file_a file_b))) }
    ensures settled { OnOk result (Settled D.Disk a.new × Settled D.Disk b.new) }
    ensures reads_a { Reads D.Disk a.old a.new }
    ensures reads_b { Reads D.Disk b.old b.new }
    ensures cause { IfErr result (λ fault. OnCause
        (λ at harm. (at ≡ 0) × Told D.Disk a.old (λ file_a. Told D.Disk b.old
        (λ file_b. IsHeadDamaged (kind_of name) file_a file_b fault.side harm)))
        (Rose (faults_of D.Disk (record { a = a.old; b = b.old }) fault.side)
        (faults_of D.Disk (record { a = a.new; b = b.new }) fault.side)) ⊥ fault.cause) }
{
    settle(a, 0)?;
    settle(b, 1)?;
    let front_a = front(a, name, 0)?;
    let front_b = front(b, name, 1)?;
    judge(front_a, front_b)
}
