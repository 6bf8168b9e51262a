//! What workers' ticks and tasks' steps do: they make no event where it may not be made.
ghost use Rattle.std.specs.Prelude.{◌≡◌, ◌<◌, ◌≤◌, ℕ, true, false, List, length, Some, None};
ghost use Rattle.cw_types.specs.declared.ids.Item.{Item};
ghost use Rattle.cw_types.specs.declared.logs.LogName.{LogName};
ghost use Rattle.cw_model.specs.declared.instance.Instance.{Instance};
ghost use Rattle.cw_model.specs.declared.instance.InstancePhase.TheVariants.{Polling};
ghost use Rattle.cw_model.specs.State.{Setting, Cluster};
ghost use Rattle.cw_model.specs.Lookups.{seen, instance_of};
ghost use Rattle.cw_model.specs.EventsGroups.{MayJoin, MayStorePlan};
ghost use Rattle.cw_model.specs.EventsItems.{MayStart};
ghost use Rattle.cw_model.specs.EventsLeading.{MayClaim, MayAppendConfig, MayFence, MayAppendFence, fencing_of};
ghost use Rattle.cw_model.specs.EventsMarking.{MayMark};
ghost use Rattle.cw_model.specs.EventsReports.{MayReport};
ghost use Rattle.cw_model.specs.EventsSinks.{MayDeliver, sink_cut};
ghost use Rattle.cw_model.specs.EventsSources.{MayProduce};
ghost use Rattle.cw_model.specs.Facts.{AreFacts};
ghost use Rattle.cw_model.specs.Polls.{Delivery, source_turn, gathered};
ghost use Rattle.cw_model.specs.Proposals.{proposal_of, are_deferred, task_records};
ghost use Rattle.cw_model.specs.Tasks.{is_sink};
ghost use Rattle.cw_model.specs.TickRules.{read_applies, stop_applies, lead_applies};
ghost use Rattle.cw_model.specs.TickRules.{Proposing, propose_applies, fence_applies};
ghost use Rattle.cw_model.specs.TickRules.{mark_applies, start_applies, report_applies};
ghost use Rattle.cw_rest.specs.Operations.{commit_values};

/// Where a rule of a worker's tick applies, and those before it don't, its event may be made: who has stopped all may
/// join, who has read all may plan, who leads may claim, and what applies to an item or a log may be done with it.
pub fn rules_make_events_that_may_be_made()
    ensures join { (s : Cluster) (w : ℕ) → stop_applies w s ≡ None → MayJoin w s }
    ensures plan { (setting : Setting) (s : Cluster) (w : ℕ) → AreFacts setting s → read_applies w s ≡ false →
        MayStorePlan w s }
    ensures lead { (s : Cluster) (w : ℕ) → lead_applies w s ≡ true → MayClaim w s }
    ensures mark { (s : Cluster) (w : ℕ) (log : LogName) → mark_applies w s ≡ Some log → MayMark log s }
    ensures start { (s : Cluster) (w : ℕ) (item : Item) → start_applies w s ≡ Some item → MayStart w item s }
    ensures report { (s : Cluster) (w : ℕ) (i : Instance) → report_applies w s ≡ Some i → MayReport w i.item s }
{}

/// What a worker that has read all has its leader write may be written: the tasks that a connector's config asks for,
/// and their commit once they stand, since those tasks are a class's own and share no part.
pub fn proposals_may_be_written()
    ensures tasks { (setting : Setting) (s : Cluster) (w : ℕ) (p : Proposing) → AreFacts setting s →
        read_applies w s ≡ false → propose_applies w s ≡ Some p → are_deferred (seen w s) p.connector ≡ false →
        MayAppendConfig p.leader (task_records p.connector (proposal_of p.connector (seen w s))) s }
    ensures commit { (setting : Setting) (s : Cluster) (w : ℕ) (p : Proposing) → AreFacts setting s →
        read_applies w s ≡ false → propose_applies w s ≡ Some p → are_deferred (seen w s) p.connector ≡ true →
        MayAppendConfig p.leader (commit_values p.connector (length (proposal_of p.connector (seen w s)))) s }
{}

/// A leader that has read of a connector whose older tasks aren't fenced may fence the next of them (KIP-618), and once
/// none is left write that.
pub fn fences_may_be_written()
    ensures one { (s : Cluster) (w : ℕ) (name : List ℕ) → fence_applies w s ≡ Some name →
        (fencing_of w name s).next < (fencing_of w name s).count → MayFence w name s }
    ensures record_of_all { (setting : Setting) (s : Cluster) (w : ℕ) (name : List ℕ) → AreFacts setting s →
        fence_applies w s ≡ Some name → (fencing_of w name s).count ≤ (fencing_of w name s).next →
        MayAppendFence w name s }
{}

/// What a polling task finds may be taken: a source's cut of the part whose turn it is may be written, and what a sink
/// gathers may be handed out.
pub fn polls_take_what_may_be_taken()
    ensures source { (setting : Setting) (s : Cluster) (i turn to : ℕ) → AreFacts setting s →
        (instance_of i s).phase ≡ Polling → is_sink (instance_of i s) ≡ false →
        source_turn setting.feeds (instance_of i s) ≡ Some turn →
        MayProduce i (sink_cut turn to (instance_of i s)) s }
    ensures sink { (s : Cluster) (i : ℕ) (d : Delivery) → (instance_of i s).phase ≡ Polling →
        is_sink (instance_of i s) ≡ true → gathered (instance_of i s) s.batches ≡ Some d → MayDeliver i d.turn d.to s }
{}
