//! What refused events leave behind, and what is refused before all else.
ghost use Rattle.std.specs.Prelude.{ℕ, List};
ghost use Rattle.cw_types.specs.declared.ids.Epoch.{Epoch};
ghost use Rattle.cw_types.specs.declared.ids.Item.{Item};
ghost use Rattle.cw_types.specs.declared.logs.LogName.{LogName};
ghost use Rattle.cw_rest.specs.Seen.{KeyedValues};
ghost use Rattle.cw_txn.specs.declared.entry.SetOffset.{SetOffset};
ghost use Rattle.cw_model.specs.declared.instance.Cut.{Cut};
ghost use Rattle.cw_model.specs.declared.instance.Trace.{Trace};
ghost use Rattle.cw_model.specs.State.{Setting, Cluster};
ghost use Rattle.cw_model.specs.EventsWorkers.{spawn, kill, deaf, hear, expire};
ghost use Rattle.cw_model.specs.EventsGroups.{join, close_round, store_plan, sync};
ghost use Rattle.cw_model.specs.EventsItems.{read_config, start_item, stop_item, restart};
ghost use Rattle.cw_model.specs.EventsLeading.{claim_lead, append_config, fence_one, append_fence, set_offsets};
ghost use Rattle.cw_model.specs.EventsSources.{init, verify, fetch, produce, put_offsets, commit};
ghost use Rattle.cw_model.specs.EventsSinks.{deliver, put_sink};
ghost use Rattle.cw_model.specs.EventsReports.{fail, put_status};
ghost use Rattle.cw_model.specs.EventsMarking.{mark};
ghost use Rattle.cw_model.specs.EventsCompaction.{compact};
ghost use Rattle.cw_model.specs.EventsRaw.{raw_init, raw_commit};
ghost use Rattle.cw_model.specs.Refusals.{Stays, StaysOrLosesLead, IsClosedTo, IsDeadTo, IsGoneTo};

/// A refused event leaves the cluster as it was, but that a leader which is fenced gives up its epoch.
pub fn refused_event_changes_nothing()
    ensures spawn { (s : Cluster) → Stays s (spawn s) }
    ensures kill { (s : Cluster) (w : ℕ) → Stays s (kill w s) }
    ensures deaf { (s : Cluster) (w : ℕ) → Stays s (deaf w s) }
    ensures hear { (s : Cluster) (w : ℕ) → Stays s (hear w s) }
    ensures expire { (s : Cluster) (setting : Setting) (w : ℕ) → Stays s (expire setting w s) }
    ensures join { (s : Cluster) (w : ℕ) → Stays s (join w s) }
    ensures close_round { (s : Cluster) (w : ℕ) → Stays s (close_round w s) }
    ensures store_plan { (s : Cluster) (w : ℕ) → Stays s (store_plan w s) }
    ensures sync { (s : Cluster) (w : ℕ) → Stays s (sync w s) }
    ensures read_config { (s : Cluster) (w : ℕ) → Stays s (read_config w s) }
    ensures start_item { (s : Cluster) (w : ℕ) (item : Item) → Stays s (start_item w item s) }
    ensures stop_item { (s : Cluster) (i : ℕ) → Stays s (stop_item i s) }
    ensures restart { (s : Cluster) (w : ℕ) (item : Item) → Stays s (restart w item s) }
    ensures claim_lead { (s : Cluster) (w : ℕ) → Stays s (claim_lead w s) }
    ensures append_config { (s : Cluster) (w : ℕ) (records : KeyedValues) →
        StaysOrLosesLead w s (append_config w records s) }
    ensures fence_one { (s : Cluster) (w : ℕ) (name : List ℕ) → StaysOrLosesLead w s (fence_one w name s) }
    ensures append_fence { (s : Cluster) (w : ℕ) (name : List ℕ) → StaysOrLosesLead w s (append_fence w name s) }
    ensures set_offsets { (s : Cluster) (w : ℕ) (name : List ℕ) (list : List SetOffset) →
        StaysOrLosesLead w s (set_offsets w name list s) }
    ensures init { (s : Cluster) (i : ℕ) → Stays s (init i s) }
    ensures verify { (s : Cluster) (i : ℕ) → Stays s (verify i s) }
    ensures fetch { (s : Cluster) (i : ℕ) → Stays s (fetch i s) }
    ensures produce { (s : Cluster) (setting : Setting) (i : ℕ) (cut : Cut) → Stays s (produce setting i cut s) }
    ensures put_offsets { (s : Cluster) (i : ℕ) → Stays s (put_offsets i s) }
    ensures commit { (s : Cluster) (i : ℕ) → Stays s (commit i s) }
    ensures deliver { (s : Cluster) (i turn to : ℕ) → Stays s (deliver i turn to s) }
    ensures put_sink { (s : Cluster) (i to : ℕ) → Stays s (put_sink i to s) }
    ensures fail { (s : Cluster) (i : ℕ) (trace : Trace) → Stays s (fail i trace s) }
    ensures put_status { (s : Cluster) (w : ℕ) (item : Item) → Stays s (put_status w item s) }
    ensures mark { (s : Cluster) (log : LogName) → Stays s (mark log s) }
    ensures compact { (s : Cluster) (log : LogName) → Stays s (compact log s) }
    ensures raw_init { (s : Cluster) (n : ℕ) → Stays s (raw_init n s) }
    ensures raw_commit { (s : Cluster) (n : ℕ) (epoch : Epoch) (list : List (ℕ × ℕ)) →
        Stays s (raw_commit n epoch list s) }
{}

/// Once a disk's fault has ended all writing, every event tells that disk and its count of faults.
pub fn closed_cluster_takes_no_event()
    ensures spawn { (s : Cluster) → IsClosedTo s (spawn s) }
    ensures kill { (s : Cluster) (w : ℕ) → IsClosedTo s (kill w s) }
    ensures deaf { (s : Cluster) (w : ℕ) → IsClosedTo s (deaf w s) }
    ensures hear { (s : Cluster) (w : ℕ) → IsClosedTo s (hear w s) }
    ensures expire { (s : Cluster) (setting : Setting) (w : ℕ) → IsClosedTo s (expire setting w s) }
    ensures join { (s : Cluster) (w : ℕ) → IsClosedTo s (join w s) }
    ensures close_round { (s : Cluster) (w : ℕ) → IsClosedTo s (close_round w s) }
    ensures store_plan { (s : Cluster) (w : ℕ) → IsClosedTo s (store_plan w s) }
    ensures sync { (s : Cluster) (w : ℕ) → IsClosedTo s (sync w s) }
    ensures read_config { (s : Cluster) (w : ℕ) → IsClosedTo s (read_config w s) }
    ensures start_item { (s : Cluster) (w : ℕ) (item : Item) → IsClosedTo s (start_item w item s) }
    ensures stop_item { (s : Cluster) (i : ℕ) → IsClosedTo s (stop_item i s) }
    ensures restart { (s : Cluster) (w : ℕ) (item : Item) → IsClosedTo s (restart w item s) }
    ensures claim_lead { (s : Cluster) (w : ℕ) → IsClosedTo s (claim_lead w s) }
    ensures append_config { (s : Cluster) (w : ℕ) (records : KeyedValues) → IsClosedTo s (append_config w records s) }
    ensures fence_one { (s : Cluster) (w : ℕ) (name : List ℕ) → IsClosedTo s (fence_one w name s) }
    ensures append_fence { (s : Cluster) (w : ℕ) (name : List ℕ) → IsClosedTo s (append_fence w name s) }
    ensures set_offsets { (s : Cluster) (w : ℕ) (name : List ℕ) (list : List SetOffset) →
        IsClosedTo s (set_offsets w name list s) }
    ensures init { (s : Cluster) (i : ℕ) → IsClosedTo s (init i s) }
    ensures verify { (s : Cluster) (i : ℕ) → IsClosedTo s (verify i s) }
    ensures fetch { (s : Cluster) (i : ℕ) → IsClosedTo s (fetch i s) }
    ensures produce { (s : Cluster) (setting : Setting) (i : ℕ) (cut : Cut) → IsClosedTo s (produce setting i cut s) }
    ensures put_offsets { (s : Cluster) (i : ℕ) → IsClosedTo s (put_offsets i s) }
    ensures commit { (s : Cluster) (i : ℕ) → IsClosedTo s (commit i s) }
    ensures deliver { (s : Cluster) (i turn to : ℕ) → IsClosedTo s (deliver i turn to s) }
    ensures put_sink { (s : Cluster) (i to : ℕ) → IsClosedTo s (put_sink i to s) }
    ensures fail { (s : Cluster) (i : ℕ) (trace : Trace) → IsClosedTo s (fail i trace s) }
    ensures put_status { (s : Cluster) (w : ℕ) (item : Item) → IsClosedTo s (put_status w item s) }
    ensures mark { (s : Cluster) (log : LogName) → IsClosedTo s (mark log s) }
    ensures compact { (s : Cluster) (log : LogName) → IsClosedTo s (compact log s) }
    ensures raw_init { (s : Cluster) (n : ℕ) → IsClosedTo s (raw_init n s) }
    ensures raw_commit { (s : Cluster) (n : ℕ) (epoch : Epoch) (list : List (ℕ × ℕ)) →
        IsClosedTo s (raw_commit n epoch list s) }
{}

/// A worker that was killed takes no event, but that the group lets it go.
pub fn killed_worker_takes_no_event()
    ensures kill { (s : Cluster) (w : ℕ) → IsDeadTo w s (kill w s) }
    ensures deaf { (s : Cluster) (w : ℕ) → IsDeadTo w s (deaf w s) }
    ensures hear { (s : Cluster) (w : ℕ) → IsDeadTo w s (hear w s) }
    ensures join { (s : Cluster) (w : ℕ) → IsDeadTo w s (join w s) }
    ensures close_round { (s : Cluster) (w : ℕ) → IsDeadTo w s (close_round w s) }
    ensures store_plan { (s : Cluster) (w : ℕ) → IsDeadTo w s (store_plan w s) }
    ensures sync { (s : Cluster) (w : ℕ) → IsDeadTo w s (sync w s) }
    ensures read_config { (s : Cluster) (w : ℕ) → IsDeadTo w s (read_config w s) }
    ensures start_item { (s : Cluster) (w : ℕ) (item : Item) → IsDeadTo w s (start_item w item s) }
    ensures restart { (s : Cluster) (w : ℕ) (item : Item) → IsDeadTo w s (restart w item s) }
    ensures claim_lead { (s : Cluster) (w : ℕ) → IsDeadTo w s (claim_lead w s) }
    ensures append_config { (s : Cluster) (w : ℕ) (records : KeyedValues) → IsDeadTo w s (append_config w records s) }
    ensures fence_one { (s : Cluster) (w : ℕ) (name : List ℕ) → IsDeadTo w s (fence_one w name s) }
    ensures append_fence { (s : Cluster) (w : ℕ) (name : List ℕ) → IsDeadTo w s (append_fence w name s) }
    ensures set_offsets { (s : Cluster) (w : ℕ) (name : List ℕ) (list : List SetOffset) →
        IsDeadTo w s (set_offsets w name list s) }
    ensures put_status { (s : Cluster) (w : ℕ) (item : Item) → IsDeadTo w s (put_status w item s) }
{}

/// An instance that has ended takes no event.
pub fn ended_instance_takes_no_event()
    ensures stop_item { (s : Cluster) (i : ℕ) → IsGoneTo i s (stop_item i s) }
    ensures init { (s : Cluster) (i : ℕ) → IsGoneTo i s (init i s) }
    ensures verify { (s : Cluster) (i : ℕ) → IsGoneTo i s (verify i s) }
    ensures fetch { (s : Cluster) (i : ℕ) → IsGoneTo i s (fetch i s) }
    ensures produce { (s : Cluster) (setting : Setting) (i : ℕ) (cut : Cut) → IsGoneTo i s (produce setting i cut s) }
    ensures put_offsets { (s : Cluster) (i : ℕ) → IsGoneTo i s (put_offsets i s) }
    ensures commit { (s : Cluster) (i : ℕ) → IsGoneTo i s (commit i s) }
    ensures deliver { (s : Cluster) (i turn to : ℕ) → IsGoneTo i s (deliver i turn to s) }
    ensures put_sink { (s : Cluster) (i to : ℕ) → IsGoneTo i s (put_sink i to s) }
    ensures fail { (s : Cluster) (i : ℕ) (trace : Trace) → IsGoneTo i s (fail i trace s) }
{}
