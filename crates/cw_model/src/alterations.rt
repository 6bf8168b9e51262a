//! Worked cases of offsets that a user alters or resets (KIP-875), and of a log that is full.
ghost use Rattle.std.specs.Prelude.{◌≡◌, ◌==◌, ◌∷◌, [], ◌++◌, ℕ, List, Option, Some, None, true, false};
ghost use Rattle.cw_rest.specs.Seen.{KeyedValues};
ghost use Rattle.cw_types.specs.declared.ids.Tid.TheVariants.{Lead};
ghost use Rattle.cw_types.specs.declared.logs.LogName.TheVariants.{Config};
ghost use Rattle.cw_txn.specs.declared.entry.Entry.TheVariants.{Bump, Set};
ghost use Rattle.cw_txn.specs.History.{base_of, end_of};
ghost use Rattle.cw_model.specs.declared.fault.WorldFault.TheVariants.{Full};
ghost use Rattle.cw_model.specs.State.{Cluster};
ghost use Rattle.cw_model.specs.Lookups.{row_of, last_epoch};
ghost use Rattle.cw_model.specs.Answers.{refused};
ghost use Rattle.cw_model.specs.Bodies.{config_length, config_body, frame_of, has_room};
ghost use Rattle.cw_model.specs.Updates.{stamped, epoch_in};
ghost use Rattle.cw_model.specs.EventsLeading.{append_config, MaySetOffsets};
ghost use Rattle.cw_model.specs.Cases.{name_s, part_s, tid_s, epoch, producing, stopping, stopped, offset_set};
ghost use Rattle.cw_model.specs.Cases.{altered_to, out_of_offsets};

/// Offsets may not be altered while the connector is started. Once it is stopped, one frame of the transaction log
/// fences its producers and sets the offsets.
pub fn offsets_are_altered_once_stopped()
    ensures started { ¬ MaySetOffsets 0 name_s (offset_set (Some 1)) producing }
    ensures stopped { MaySetOffsets 0 name_s (offset_set (Some 1)) stopped }
    ensures frame { (altered_to (Some 1)).txn ≡
        stopped.txn ++ (Bump (tid_s 0) ∷ Set Lead (epoch 1) (offset_set (Some 1)) ∷ []) ∷ [] }
    ensures altered { end_of (part_s 0) (altered_to (Some 1)).entries ≡ Some 1 }
{}

/// Offsets are reset: the part has no end any more, and is read from its beginning.
pub fn offsets_are_reset()
    ensures before { end_of (part_s 0) stopped.entries ≡ Some 2 }
    ensures end { end_of (part_s 0) (altered_to None).entries ≡ None }
    ensures base { base_of (part_s 0) (altered_to None).entries ≡ 0 }
{}

/// A config log that has no offset left takes no record.
pub fn config_log_without_offsets_is_full()
    ensures { let s = out_of_offsets in append_config 0 stopping s ≡
        refused (Full Config (config_length s) (frame_of (config_body (stamped stopping s)))) s }
{}

/// A config log takes no frame with which it would be longer than it may be.
pub fn config_log_without_room_is_full()
    ensures { (s : Cluster) (w : ℕ) (records : KeyedValues) →
        s.closed ≡ None → (row_of w s).live ≡ true → (epoch_in (row_of w s).lead == last_epoch Lead s) ≡ true →
        has_room (config_length s) (frame_of (config_body (stamped records s))) ≡ false →
        append_config w records s ≡
        refused (Full Config (config_length s) (frame_of (config_body (stamped records s)))) s }
{}
