//! Worked cases of replies and of what calls write: each function's contract is a case, and it does nothing.
ghost use Rattle.std.specs.Prelude.{◌≡◌, ◌∷◌, [], Some, None, true, false, codes};
ghost use Rattle.cw_types.specs.declared.ids.Tid.TheVariants.{Lead, Task};
ghost use Rattle.cw_keys.specs.declared.target.Target.TheVariants.{Stopped};
ghost use Rattle.cw_keys.specs.declared.config_key.ConfigKey.TheVariants as key;
ghost use Rattle.cw_keys.specs.declared.config_value.ConfigValue.TheVariants as value;
ghost use Rattle.cw_plugin.specs.declared.fault.PluginFault.TheVariants.{NoFeed};
ghost use Rattle.cw_route.specs.declared.call.Call.TheVariants.{Info, Status, Stop, RestartTask, Offsets, Reset};
ghost use Rattle.cw_txn.specs.declared.entry.Entry.TheVariants.{Bump, Set};
ghost use Rattle.cw_rest.specs.Messages.{rebalancing, already_there, bad_config, no_connector, no_task, not_stopped};
ghost use Rattle.cw_rest.specs.Messages.{bad_offset};
ghost use Rattle.cw_rest.specs.Replies.{reply_to, create_reply, alter_reply, sets_of, values_of, entries_of};
ghost use Rattle.cw_rest.specs.Cases.{name_a, task_a, part_a, asked_a, nothing_yet, at_work, at_rest, info_text};
ghost use Rattle.cw_rest.specs.Cases.{exists_text, absent_text, status_text, offsets_text, altering, removing};
ghost use Rattle.cw_rest.specs.Cases.{altering_a_topic};

/// A new connector is told with its config, and with no task yet.
pub fn new_connector_is_told()
    ensures code { (create_reply true nothing_yet asked_a).code ≡ 201 }
    ensures body { (create_reply true nothing_yet asked_a).body ≡ info_text }
{}

/// Without a leader a connector can't be made, nor where it is already there, nor of a feed that isn't loaded; the
/// first of these that holds is told.
pub fn refused_connector_is_told_why()
    ensures leader { create_reply false at_work asked_a ≡ rebalancing }
    ensures there { create_reply true at_work asked_a ≡ already_there name_a }
    ensures feed { create_reply true (record nothing_yet { feeds = [] }) asked_a ≡
        bad_config (NoFeed (codes "orders")) }
    ensures text { (already_there name_a).body ≡ exists_text }
{}

/// What isn't there is not found, whether it is read, stopped or restarted.
pub fn absent_connector_is_not_found()
    ensures read { reply_to false nothing_yet (Info name_a) ≡ no_connector name_a }
    ensures stop { reply_to true nothing_yet (Stop name_a) ≡ no_connector name_a }
    ensures task { reply_to true at_rest (RestartTask task_a) ≡ no_task task_a }
    ensures text { (no_connector name_a).body ≡ absent_text }
{}

/// The states of a connector and its tasks, and its offsets, as Kafka Connect tells them.
pub fn connector_at_work_is_told()
    ensures status { (reply_to false at_work (Status name_a)).body ≡ status_text }
    ensures offsets { (reply_to false at_work (Offsets name_a)).body ≡ offsets_text }
{}

/// A connector that is stopped loses its tasks and gets its target state, in one frame.
pub fn stop_writes_two_records()
    ensures { values_of (Stop name_a) ≡
        (key.Commit name_a, Some (value.Commit 0)) ∷ (key.Target name_a, Some (value.Target Stopped)) ∷ [] }
{}

/// Offsets of a connector that isn't stopped can't be modified; once it is, its producers are fenced and its offsets
/// set, in one frame (KIP-875).
pub fn stopped_connector_is_reset()
    ensures running { reply_to true at_work (Reset name_a) ≡ not_stopped }
    ensures stopped { (reply_to true at_rest (Reset name_a)).code ≡ 200 }
    ensures frame { entries_of at_rest (Reset name_a) ≡ Bump (Task task_a) ∷
        Set Lead (record { 0 = 1 }) (record { part = part_a; to = None } ∷ []) ∷ [] }
{}

/// Offsets are altered or removed as they are asked for, if their parts are of the connector's type (KIP-875).
pub fn stopped_connector_is_altered()
    ensures altered { sets_of name_a at_rest (altering ∷ []) ≡ Some (record { part = part_a; to = Some 6 } ∷ []) }
    ensures removed { sets_of name_a at_rest (removing ∷ []) ≡ Some (record { part = part_a; to = None } ∷ []) }
    ensures done { (alter_reply true at_rest name_a (altering ∷ [])).code ≡ 200 }
    ensures refused { alter_reply true at_rest name_a (altering_a_topic ∷ []) ≡ bad_offset }
    ensures running { alter_reply true at_work name_a (altering ∷ []) ≡ not_stopped }
{}
