//! The laws of compaction, for every offset log. They do nothing at run time.
ghost use Rattle.std.specs.Prelude.{List};
ghost use Rattle.cw_txn.specs.declared.entry.Entry.{Entry};
ghost use Rattle.cw_txn.specs.Legal.{IsLegal};
ghost use Rattle.cw_offset.specs.declared.body.OffsetEntry.{OffsetEntry};
ghost use Rattle.cw_offset.specs.Acceptance.{AreAllowedStored};
ghost use Rattle.cw_offset.specs.Compaction.{compact_offsets};
ghost use Rattle.cw_offset.specs.Replay.{SaysTheSame, GoesByPlace};

/// Each entry that a compaction leaves may stand where it does, so that the log opens again.
pub fn compacted_offsets_are_allowed()
    ensures { (entries : List Entry) (log : List OffsetEntry) → AreAllowedStored entries log →
        AreAllowedStored entries (compact_offsets entries log) }
{}

/// Over a compacted log what is committed of a part is what it is over the whole one, now and behind any further
/// calls that commit nothing which was aborted.
pub fn compacted_offsets_say_the_same()
    ensures { (entries : List Entry) (log : List OffsetEntry) → IsLegal entries → AreAllowedStored entries log →
        SaysTheSame entries (compact_offsets entries log) log }
{}

/// The first transaction to mark is by place in the log as it stands, behind an opening of it, whether it was
/// compacted before or not, and behind any further frames.
pub fn first_unmarked_goes_by_place()
    ensures { (entries : List Entry) (log : List OffsetEntry) → GoesByPlace entries log }
{}
