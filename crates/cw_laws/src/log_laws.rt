//! Laws of the logs: a compaction and a marker keep all facts, and a marker tells how its transaction ended.
ghost use Rattle.std.specs.Prelude.{◌≡◌, ℕ, Bool, List, Some, Contains};
ghost use Rattle.cw_types.specs.declared.ids.Tag.{Tag};
ghost use Rattle.cw_types.specs.declared.logs.LogName.{LogName};
ghost use Rattle.cw_bytes.specs.declared.mark.Mark.{Mark as Marker};
ghost use Rattle.cw_txn.specs.Legal.{is_committed};
ghost use Rattle.cw_offset.specs.declared.body.OffsetEntry.TheVariants.{Mark};
ghost use Rattle.cw_data.specs.Log.{marker_of, taken};
ghost use Rattle.cw_model.specs.State.{Setting, Cluster};
ghost use Rattle.cw_model.specs.EventsCompaction.{compact};
ghost use Rattle.cw_model.specs.EventsMarking.{mark, MayMark};
ghost use Rattle.cw_model.specs.Facts.{AreFacts};
ghost use Rattle.cw_laws.specs.Laws.{Keeps};
ghost use Rattle.cw_laws.specs.Markers.{first_committed};

/// A log is compacted, or a transaction that has ended is marked in it: all facts stay.
pub fn logs_keep_facts()
    ensures compact { (setting : Setting) (s : Cluster) (log : LogName) → Keeps setting s (compact log s) }
    ensures mark { (setting : Setting) (s : Cluster) (log : LogName) → MayMark log s → Keeps setting s (mark log s) }
{}

/// A marker says commit just where the transaction list has its transaction's commit, so that what is read of a topic
/// below its last stable offset is what is committed there, and nothing else (KIP-98).
pub fn markers_tell_how_transactions_ended()
    ensures data { (setting : Setting) (s : Cluster) (tag : Tag) (committed : Bool) → AreFacts setting s →
        marker_of tag s.batches ≡ Some committed → committed ≡ is_committed tag s.entries }
    ensures offsets { (setting : Setting) (s : Cluster) (marker : Marker) → AreFacts setting s →
        Contains s.offsets.frames (Mark marker) → marker.committed ≡ is_committed marker.tag s.entries }
    ensures taken { (setting : Setting) (s : Cluster) (topic : List ℕ) (from : ℕ) → AreFacts setting s →
        taken topic from s.batches ≡ first_committed topic from s }
{}
