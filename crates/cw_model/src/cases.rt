//! Worked cases of fencing: the states are built by hand, and each event is computed.
ghost use Rattle.std.specs.Prelude.{◌≡◌, ◌∷◌, [], None};
ghost use Rattle.cw_model.specs.declared.fault.WorldFault.{WorldFault};
ghost use Rattle.cw_model.specs.declared.instance.InstancePhase.{InstancePhase};
ghost use Rattle.cw_model.specs.Lookups.{row_of, instance_of};
ghost use Rattle.cw_model.specs.Answers.{refused};
ghost use Rattle.cw_model.specs.EventsLeading.{claim_lead, append_config, fence_one, append_fence, MayFence};
ghost use Rattle.cw_model.specs.EventsLeading.{MayAppendFence};
ghost use Rattle.cw_model.specs.EventsSources.{verify, fetch, commit};
ghost use Rattle.cw_model.specs.Cases.{behind, answer_of, name_s, epoch, unfenced, nearly_fenced, wholly_fenced};
ghost use Rattle.cw_model.specs.Cases.{polling, with_second_leader, led_by_another, stopping, verified_later};

/// A task of an older set has produced and offered; the leader fences it, and its commit is refused (KIP-618).
pub fn zombie_commits_no_more_once_fenced()
    ensures fenced { answer_of (fence_one 0 name_s) (unfenced InstancePhase.Offered 1) ≡ Ok (0, epoch 2) }
    ensures refused { let s = behind (fence_one 0 name_s) (unfenced InstancePhase.Offered 1) in
        commit 0 s ≡ refused (WorldFault.Fenced 1 2) s }
{}

/// A task of an older set initialises late: it is stale.
pub fn late_task_is_stale()
    ensures { let s = unfenced InstancePhase.Inited 1 in verify 0 s ≡ refused (WorldFault.StaleGeneration 1 3) s }
{}

/// A task of the newest set waits for the fence.
pub fn new_task_waits_for_its_fence()
    ensures { let s = unfenced InstancePhase.Inited 3 in verify 0 s ≡ refused WorldFault.PendingFence s }
{}

/// Another worker claims the lead: the old leader's write is refused, and it gives up its epoch (KIP-618).
pub fn old_leader_is_fenced_and_gives_up()
    ensures claimed { answer_of (claim_lead 1) (with_second_leader polling) ≡ Ok (epoch 2) }
    ensures fenced { answer_of (append_config 0 stopping) led_by_another ≡ Err (WorldFault.Fenced 1 2) }
    ensures given_up { (row_of 0 (behind (append_config 0 stopping) led_by_another)).lead ≡ None }
    ensures unwritten { (behind (append_config 0 stopping) led_by_another).configs ≡ polling.configs }
{}

/// The leader fences each producer of the older set, writes that, and then a task of the new set goes on.
pub fn new_task_goes_on_once_fenced()
    ensures may { MayFence 0 name_s (unfenced InstancePhase.Inited 3) }
    ensures may_write { MayAppendFence 0 name_s nearly_fenced }
    ensures offset { answer_of (append_fence 0 name_s) nearly_fenced ≡ Ok 4 }
    ensures verified { answer_of (verify 0) wholly_fenced ≡ Ok 3 }
{}

/// A later task goes on where the last commit ended.
pub fn later_task_goes_on_where_the_last_commit_ended()
    ensures { (instance_of 0 (behind (fetch 0) verified_later)).positions ≡ 3 ∷ [] }
{}
