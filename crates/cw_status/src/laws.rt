//! The law of compaction, for every list of statuses. It does nothing at run time.
ghost use Rattle.std.specs.Prelude.{List};
ghost use Rattle.cw_bytes.specs.declared.applied.Applied.{Applied};
ghost use Rattle.cw_status.specs.Compaction.{compact_statuses, records_in, AreAllowedStatuses, SaysTheSame};

/// Over a compacted log each item's latest status is that of the whole one, now and behind any further records.
pub fn compacted_statuses_say_the_same()
    ensures { (frames : List (List Applied)) → AreAllowedStatuses frames →
        SaysTheSame (records_in (compact_statuses frames)) (records_in frames) }
{}
