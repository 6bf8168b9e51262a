//! Worked cases of states that are reported and of restarts that a user asks for.
ghost use Rattle.std.specs.Prelude.{◌≡◌, ◌∷◌, [], Some, None, codes};
ghost use Rattle.cw_keys.specs.declared.state.State.TheVariants.{Running, Failed};
ghost use Rattle.cw_status.specs.Statuses.{latest};
ghost use Rattle.cw_model.specs.Lookups.{held};
ghost use Rattle.cw_model.specs.EventsWorkers.{deaf};
ghost use Rattle.cw_model.specs.EventsItems.{restart};
ghost use Rattle.cw_model.specs.EventsReports.{put_status};
ghost use Rattle.cw_model.specs.Cases.{behind, played, task_s, polling, status_records, failed_then_reported};
ghost use Rattle.cw_model.specs.Cases.{at_two_workers};

/// A task is reported as it runs, and with its trace once it has failed.
pub fn failed_task_is_reported_with_its_trace()
    ensures runs { latest (task_s 0) (status_records (behind (put_status 0 (task_s 0)) polling)) ≡
        Some (record { state = Running; trace = None; worker = 0; round = 0 }) }
    ensures failed { latest (task_s 0) (status_records failed_then_reported) ≡
        Some (record { state = Failed; trace = Some (codes "Fenced: epoch 1, current 2"); worker = 0; round = 0 }) }
{}

/// A restart ends what runs of an item at a worker that hears the group, and nothing at one that is deaf.
pub fn restart_reaches_workers_that_hear()
    ensures hears { held 1 (behind (restart 0 (task_s 1)) at_two_workers) ≡ [] }
    ensures deaf { held 1 (played (behind (deaf 1) ∷ behind (restart 0 (task_s 1)) ∷ []) at_two_workers) ≡
        task_s 1 ∷ [] }
{}
