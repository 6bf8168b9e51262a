//! Worked cases of the steps of tasks and of a script's producers: each event is computed, down to the bytes of its
//! frame.
ghost use Rattle.std.specs.Prelude.{◌≡◌, ◌∷◌, [], Some, Ok, true, false, codes, drop};
ghost use Rattle.cw_types.specs.declared.logs.LogName.TheVariants.{Config, Offsets, Batches};
ghost use Rattle.cw_txn.specs.History.{end_of};
ghost use Rattle.cw_data.specs.Log.{stable, taken};
ghost use Rattle.cw_model.specs.declared.fault.WorldFault.TheVariants.{BadCut, Fenced};
ghost use Rattle.cw_model.specs.Lookups.{instance_of};
ghost use Rattle.cw_model.specs.Answers.{refused};
ghost use Rattle.cw_model.specs.Bodies.{config_length, txn_length};
ghost use Rattle.cw_model.specs.EventsSources.{produce, commit, is_bad_cut};
ghost use Rattle.cw_model.specs.Tasks.{part_at, yielded};
ghost use Rattle.cw_model.specs.EventsMarking.{mark};
ghost use Rattle.cw_model.specs.EventsCompaction.{compact};
ghost use Rattle.cw_model.specs.Cases.{behind, answer_of, empty_cluster, small_setting, name_s, part_s, span_s, tag_s};
ghost use Rattle.cw_model.specs.Cases.{polling, cut_to, offered, both_committed, sunk, sink_part, script_begun};
ghost use Rattle.cw_model.specs.Cases.{script_begun_again, commit_five, feed_f, file_task, two_task_sets};
ghost use Rattle.cw_model.specs.Cases.{task_config_s, with_frames, offsets_in, older_target, opened_older};
ghost use Rattle.cw_model.specs.Cases.{twice_committed};

/// A source's task writes records and their offset, and commits both at once (KIP-618).
pub fn task_commits_records_with_their_offset()
    ensures bad { produce small_setting 0 (cut_to 5) polling ≡ refused (BadCut 0 5) polling }
    ensures span { answer_of (commit 0) offered ≡ Ok (span_s 0 2) }
    ensures end { end_of (part_s 0) both_committed.entries ≡ Some 2 }
    ensures goes_on { (instance_of 0 both_committed).positions ≡ 2 ∷ [] }
{}

/// A cut of a feed ends behind a line's end, and what is written for it are its whole lines (Kafka Connect's
/// FileStreamSourceTask).
pub fn cut_ends_behind_a_line()
    ensures whole { is_bad_cut feed_f file_task (cut_to 4) ≡ false }
    ensures inside { is_bad_cut feed_f file_task (cut_to 3) ≡ true }
    ensures unended { is_bad_cut feed_f file_task (cut_to 7) ≡ true }
    ensures line { yielded feed_f (part_at 0 file_task) 0 4 ≡ codes "one" ∷ [] }
{}

/// What a task committed is stable once it is marked, in the data log and in the offset log.
pub fn committed_records_are_stable_once_marked()
    ensures unstable { stable name_s both_committed.batches ≡ 0 }
    ensures marker { answer_of (mark Batches) both_committed ≡ Ok (tag_s 1, true) }
    ensures stable { stable name_s (behind (mark Batches) both_committed).batches ≡ 2 }
    ensures record_ { taken name_s 1 (behind (mark Batches) both_committed).batches ≡ Some (1, codes "0-1") }
    ensures offset { answer_of (mark Offsets) both_committed ≡ Ok (tag_s 1, true) }
{}

/// A sink's task hands out what is stable, and stores how far it came.
pub fn sink_stores_how_far_it_came()
    ensures { end_of sink_part sunk.entries ≡ Some 2 }
{}

/// A script's producer is fenced by its next epoch, and commits from where its parts ended.
pub fn script_producer_is_judged_by_its_epoch()
    ensures bytes { txn_length empty_cluster ≡ 17 }
    ensures bytes_after { txn_length script_begun ≡ 32 }
    ensures bytes_then { txn_length (behind (commit_five 1) script_begun) ≡ 96 }
    ensures fenced { commit_five 1 script_begun_again ≡ refused (Fenced 1 2) script_begun_again }
    ensures bad { let s = behind (commit_five 1) script_begun in commit_five 1 s ≡ refused (BadCut 5 5) s }
{}

/// Of each key the last record stays; a task's config that waits for its commit stays too.
pub fn config_log_keeps_the_last_of_each_key()
    ensures counts { answer_of (compact Config) (with_frames two_task_sets) ≡ Ok (10, 6) }
    ensures stays { offsets_in (behind (compact Config) (with_frames two_task_sets)) ≡
        (2 ∷ 3 ∷ []) ∷ (6 ∷ []) ∷ (7 ∷ []) ∷ (8 ∷ []) ∷ (9 ∷ []) ∷ [] }
    ensures waiting { let frames = (task_config_s 0 0 ∷ []) ∷ (task_config_s 1 0 ∷ []) ∷ [] in
        answer_of (compact Config) (with_frames frames) ≡ Ok (2, 2) }
{}

/// A compaction leaves keys and values as they are spelled: of two target states the last one stays, with the bytes
/// that it had when the log was opened.
pub fn compaction_leaves_spellings_as_they_are()
    ensures counts { answer_of (compact Config) opened_older ≡ Ok (2, 1) }
    ensures stays { (behind (compact Config) opened_older).config.frames ≡
        (record older_target { offset = 1 } ∷ []) ∷ [] }
    ensures bytes { config_length opened_older ≡ 158 }
    ensures bytes_then { config_length (behind (compact Config) opened_older) ≡ 92 }
{}

/// An offset goes once a later one of its part is committed and marked, and its marker goes with it.
pub fn offset_log_keeps_the_last_committed_of_each_part()
    ensures counts { answer_of (compact Offsets) twice_committed ≡ Ok (2, 1) }
    ensures stays { (behind (compact Offsets) twice_committed).offsets.frames ≡ drop 2 twice_committed.offsets.frames }
{}
