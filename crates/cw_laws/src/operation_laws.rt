//! What the operations of Connect's REST API write, and who may write it.
ghost use Rattle.std.specs.Prelude.{◌≡◌, ◌≢◌, ℕ, Bool, true, List, Some, IsSome};
ghost use Rattle.cw_types.specs.Name.{IsName};
ghost use Rattle.cw_keys.specs.declared.target.Target.{Target};
ghost use Rattle.cw_keys.specs.declared.target.Target.TheVariants.{Stopped};
ghost use Rattle.cw_config.specs.View.{Properties, config_of};
ghost use Rattle.cw_route.specs.declared.call.Call.{Call};
ghost use Rattle.cw_rest.specs.Calls.{writes_configs, writes_offsets, deed_of};
ghost use Rattle.cw_rest.specs.Replies.{reply_to, values_of, connector_set, offsets_of};
ghost use Rattle.cw_rest.specs.Seen.{Seen};
ghost use Rattle.cw_rest.specs.Operations.{config_values, target_values, stop_values, delete_values};
ghost use Rattle.cw_model.specs.State.{Setting, Cluster};
ghost use Rattle.cw_model.specs.Lookups.{row_of};
ghost use Rattle.cw_model.specs.EventsLeading.{MayAppendConfig, MaySetOffsets};
ghost use Rattle.cw_model.specs.Facts.{AreFacts};
ghost use Rattle.cw_model.specs.Journal.{is_success};
ghost use Rattle.cw_model.specs.Ready.{ready};
ghost use Rattle.cw_laws.specs.Operations.{MayConfigure};
ghost use Rattle.cw_laws.specs.Requests.{IsOfName, HasNamedFeeds};

/// Whoever has a lead epoch may write what an operation asks for: a config that a connector's class takes, a pause or a
/// resume, a stop, which leaves the connector no tasks (KIP-875), and a removal.
pub fn operations_may_be_written()
    ensures config { (s : Cluster) (leader : ℕ) (name : List ℕ) (props : Properties) →
        IsSome (row_of leader s).lead → MayConfigure name props →
        MayAppendConfig leader (config_values name props) s }
    ensures target { (s : Cluster) (leader : ℕ) (name : List ℕ) (target : Target) → IsSome (row_of leader s).lead →
        IsName name → target ≢ Stopped → MayAppendConfig leader (target_values name target) s }
    ensures stop { (s : Cluster) (leader : ℕ) (name : List ℕ) → IsSome (row_of leader s).lead → IsName name →
        MayAppendConfig leader (stop_values name) s }
    ensures delete { (s : Cluster) (leader : ℕ) (name : List ℕ) → IsSome (row_of leader s).lead → IsName name →
        MayAppendConfig leader (delete_values name) s }
{}

/// A worker that is ready writes through a leader with an epoch, and what is configured has a name.
pub fn operations_find_leader_and_name()
    ensures leader { (s : Cluster) (w leader : ℕ) → ready w s ≡ Some leader → IsSome (row_of leader s).lead }
    ensures name { (setting : Setting) (s : Cluster) (name : List ℕ) → AreFacts setting s →
        IsSome (config_of name s.configs) → IsName name }
{}

/// What a call of the REST API writes to the config log, or sets of a stopped connector's offsets (KIP-875), where it
/// succeeds over all that stands there, may be written by its worker's leader.
pub fn calls_write_what_may_be_written()
    ensures configs { (setting : Setting) (s : Cluster) (w leader : ℕ) (is_ready : Bool) (seen : Seen) (call : Call) →
        AreFacts setting s → ready w s ≡ Some leader → IsOfName call → HasNamedFeeds seen →
        seen.configs ≡ s.configs → deed_of call ≡ writes_configs →
        is_success (reply_to is_ready seen call) ≡ true → MayAppendConfig leader (values_of call) s }
    ensures offsets { (setting : Setting) (s : Cluster) (w leader : ℕ) (is_ready : Bool) (seen : Seen) (call : Call) →
        AreFacts setting s → ready w s ≡ Some leader → seen.configs ≡ s.configs → seen.entries ≡ s.entries →
        deed_of call ≡ writes_offsets → is_success (reply_to is_ready seen call) ≡ true →
        MaySetOffsets leader (connector_set call) (offsets_of seen call) s }
{}
