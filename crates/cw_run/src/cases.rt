//! Worked cases: each function's contract is that a script is answered as it stands there, and it does nothing.
ghost use Rattle.std.specs.Prelude.{◌≡◌, ◌∷◌, [], codes, Some, None};
ghost use Rattle.cw_types.specs.declared.logs.LogName.TheVariants.{Config};
ghost use Rattle.cw_script.specs.declared.fault.LineKind.TheVariants.{NoWord, NoWorker, NoInstance};
ghost use Rattle.cw_model.specs.Cases.{empty_cluster};
ghost use Rattle.cw_model.specs.WorkedCases.{setting};
ghost use Rattle.cw_lines.specs.declared.end.DriveEnd.TheVariants.{BadScript, Full};
ghost use Rattle.cw_run.specs.Run.{run};
ghost use Rattle.cw_run.specs.Scripts.{lines, wanted, IsAnswered, played_with, empty_feeds, worn, out_of_offsets};
ghost use Rattle.cw_run.specs.Scripts.{creation, producers, member, killed, created, settled, altered, zombie};
ghost use Rattle.cw_run.specs.Scripts.{compacted};

/// A producer is judged by its epoch (KIP-98), and then by the ends of the parts that it commits.
pub fn producers_are_judged_by_their_epochs()
    ensures { IsAnswered producers }
{}

/// A member of the group has an id.
pub fn member_has_an_id()
    ensures { IsAnswered member }
{}

/// A worker that was killed answers nothing and holds nothing.
pub fn killed_worker_answers_nothing()
    ensures { IsAnswered killed }
{}

/// A connector is created once there is a leader.
pub fn connector_is_created_once_there_is_a_leader()
    ensures { IsAnswered created }
{}

/// Where enough has moved, a cluster that isn't quiet yet stays as it is.
pub fn cluster_settles_half_way()
    ensures { IsAnswered settled }
{}

/// A source is read to its end. Its offset is altered once it is stopped (KIP-875), and it is then read from there.
pub fn source_is_read_again_from_an_altered_offset()
    ensures { IsAnswered altered }
{}

/// A task of a worker that was lost commits no more once the next set of tasks is fenced (KIP-618).
pub fn zombie_is_fenced()
    ensures { IsAnswered zombie }
{}

/// Of a connector whose tasks became fewer the compacted config log keeps what is last.
pub fn fewer_tasks_are_compacted()
    ensures { (played_with empty_feeds compacted).text ≡ wanted compacted }
{}

/// A line that is no directive, or names a worker or an instance that never was, ends the script.
pub fn lines_that_say_nothing_end_the_script()
    ensures no_word { (run setting empty_cluster (lines (codes "# none" ∷ [] ∷ codes "jump 1" ∷ []))).stop ≡
        Some (BadScript 3 NoWord) }
    ensures no_worker { (run setting empty_cluster (lines (codes "spawn" ∷ codes "tick 1" ∷ []))).stop ≡
        Some (BadScript 2 NoWorker) }
    ensures no_instance { (run setting empty_cluster (lines (codes "spawn" ∷ codes "step 0" ∷ []))).stop ≡
        Some (BadScript 2 NoInstance) }
    ensures answered { (run setting empty_cluster (lines (codes "spawn" ∷ codes "tick 1" ∷ codes "spawn" ∷ []))).text ≡
        lines (codes "worker 0" ∷ []) }
{}

/// A log that is full ends the script.
pub fn full_log_ends_the_script()
    ensures stop { (run setting worn (lines (codes "compact config" ∷ []))).stop ≡ Some (Full Config 17 0) }
    ensures silent { (run setting worn (lines (codes "compact config" ∷ []))).text ≡ [] }
{}

/// But a request is answered that its log is full, nothing is written, and the script goes on.
pub fn request_is_answered_that_a_log_is_full()
    ensures text { (run setting out_of_offsets (lines (creation ∷ codes "rest 0 GET /connectors" ∷ []))).text ≡
        lines (codes "507 {\"error_code\":507,\"message\":\"Log config is full\"}" ∷ codes "200 []" ∷ []) }
    ensures stop { (run setting out_of_offsets (lines (creation ∷ codes "rest 0 GET /connectors" ∷ []))).stop ≡ None }
{}
