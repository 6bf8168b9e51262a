//! Worked cases of rebalances: each begins with no worker, and every event is computed (KIP-415).
ghost use Rattle.std.specs.Prelude.{◌≡◌, ◌∷◌, [], Ok};
ghost use Rattle.cw_model.specs.Lookups.{row_of};
ghost use Rattle.cw_model.specs.EventsWorkers.{clock};
ghost use Rattle.cw_model.specs.Cases.{behind, answer_of, connector_s, task_s, at_one_worker, revoked_from_one};
ghost use Rattle.cw_model.specs.Cases.{at_two_workers, lost_one, waiting_out, given_back};
ghost use Rattle.cw_assign.specs.declared.delay.Delay.TheVariants.{Idle, Until};

/// A second worker comes: the first round takes a task from the first worker and gives it to nobody, and only the
/// round behind that gives it to the second.
pub fn rebalance_revokes_before_it_gives()
    ensures alone { (row_of 0 at_one_worker).assigned ≡ connector_s ∷ task_s 0 ∷ task_s 1 ∷ [] }
    ensures kept { (row_of 0 revoked_from_one).assigned ≡ connector_s ∷ task_s 0 ∷ [] }
    ensures revoked { (row_of 0 revoked_from_one).revoked ≡ task_s 1 ∷ [] }
    ensures nothing_yet { (row_of 1 revoked_from_one).assigned ≡ [] }
    ensures given { (row_of 1 at_two_workers).assigned ≡ task_s 1 ∷ [] }
{}

/// A worker is lost: its task waits for it through the scheduled delay, and is given to the other worker afterwards.
pub fn lost_task_waits_through_the_delay()
    ensures lost { lost_one.lost ≡ task_s 1 ∷ [] }
    ensures delay { lost_one.delay ≡ Until 300 }
    ensures waits { (row_of 0 waiting_out).assigned ≡ connector_s ∷ task_s 0 ∷ [] }
    ensures given { (row_of 0 given_back).assigned ≡ connector_s ∷ task_s 0 ∷ task_s 1 ∷ [] }
    ensures over { given_back.delay ≡ Idle }
{}

/// The clock moves the moment on, and never back.
pub fn clock_never_goes_back()
    ensures on { answer_of (clock 7) lost_one ≡ Ok 7 }
    ensures kept { clock 5 (behind (clock 7) lost_one) ≡ (Ok 7, behind (clock 7) lost_one) }
{}
