// Opening the chosen side of a pair.
ghost use Rattle.std.specs.Prelude.{◌≡◌, ◌≤◌, ◌<◌, List, ℕ, Some, false, [], IfOk, IfErr, MatchResult, is_some};
ghost use Rattle.cw_disk.specs.Told.{Adds, Settled, Told};
ghost use Rattle.cw_types.specs.Faults.{Rose};
ghost use Rattle.cw_log.specs.Log.{OnCause, OpensAs, kind_of};
ghost use Rattle.cw_pair.specs.Pair.{BreaksBeside, IsFirst, StandAlikeBeside, StandsBeside};
ghost use Rattle.cw_pair.specs.State.{IsPair};
ghost use Rattle.cw_log.specs.declared.fault.Harm.TheVariants.{Length};

use crate::Two;
use cw_disk::Disk;
use cw_log::{BodyVisitor, OpenCause, TopicLog};
use cw_types::LogName;
use std::alloc::Global;

/// A side that was not opened as a log, the other disk, and why.
#[derive(Drop)]
pub(crate) struct HalfFault<D> {
    pub(crate) chosen: D,
    pub(crate) other: D,
    pub(crate) cause: OpenCause,
}

/// Opens the log of the side that is the right one by its header, beside the other side.
pub(crate) fn open_chosen<D: Disk, V: BodyVisitor>(
    alloc: Global,
    chosen: D,
    other: D,
    on_b: bool,
    name: LogName,
    limit: u64,
    visitor: &mut V,
) -> Result<Two<D>, HalfFault<D>>
    requires first { Told D.Disk chosen (λ file. Told D.Disk other (λ beside. IsFirst (kind_of name) file beside)) }
    requires settled { Settled D.Disk other }
    ensures list { IfOk result (λ two. Told D.Disk chosen (λ file. Told D.Disk other
        (λ beside. (bodies : List (List ℕ)) × (two.log.bodies ≡ Some bodies) ×
        StandsBeside (kind_of name) bodies file beside))) }
    ensures told { IfOk result (λ two. is_some two.log.bodies ≡ is_some (D.holds chosen)) }
    ensures bytes { IfOk result (λ two. Told D.Disk chosen
        (λ file. OpensAs (kind_of name) two.log.number file (D.holds two.log.disk))) }
    ensures new { IfOk result (λ two. (two.log.kind ≡ kind_of name) × (two.log.limit ≡ limit) ×
        (two.log.shut ≡ false) × (two.on_b ≡ on_b) × (two.other ≡ other)) }
    ensures pair { IfOk result (λ two. IsPair D.holds D.may_leave two.log two.other) }
    ensures seen { IfOk result (λ two. V.has_seen visitor.old [] → (bodies : List (List ℕ)) → two.log.bodies ≡
        Some bodies → V.has_seen visitor.new bodies) }
    ensures same { IfErr result (λ fault. fault.other ≡ other) }
    ensures cause { IfErr result (λ fault. OnCause
        (λ at harm. (D.holds fault.chosen ≡ D.holds chosen) × Told D.Disk chosen (λ file. Told D.Disk other
        (λ beside. (harm ≡ Length) × BreaksBeside (kind_of name) at file beside)))
        (Rose (D.count chosen) (D.count fault.chosen))
        (D.holds fault.chosen ≡ D.holds chosen) fault.cause) }
    ensures any_moment { Told D.Disk chosen (λ file. Told D.Disk other (λ beside. MatchResult result
        (λ two. Adds D.Disk chosen two.log.disk (StandAlikeBeside (kind_of name) beside file))
        (λ fault. Adds D.Disk chosen fault.chosen (StandAlikeBeside (kind_of name) beside file)))) }
    ensures later { MatchResult result (λ two. D.count chosen ≤ D.count two.log.disk)
        (λ fault. D.count chosen ≤ D.count fault.chosen) }
{
    match TopicLog::open_with(alloc, chosen, name, limit, visitor) {
        Ok(log) => Ok(Two { log, other, on_b }),
        Err(fault) => Err(HalfFault {
            chosen: fault.disk,
            other,
            cause: fault.cause,
        }),
    }
}
