//! Worked cases of safety, of ticks and of opening: each function's contract is a case, and it does nothing.
ghost use Rattle.std.specs.Prelude.{◌≡◌, ◌++◌, ◌∷◌, [], Ok, codes};
ghost use Rattle.cw_types.specs.declared.logs.LogName.{LogName};
ghost use Rattle.cw_log.specs.declared.fault.Harm.{Harm};
ghost use Rattle.cw_model.specs.declared.tick.Tick.{Tick};
ghost use Rattle.cw_model.specs.State.{Setting};
ghost use Rattle.cw_model.specs.Committed.{batches_of, committed_records};
ghost use Rattle.cw_model.specs.Safe.{IsSafe, IsDisjoint, IsFenced, IsBacked};
ghost use Rattle.cw_model.specs.FactsProducers.{HasItsBatch};
ghost use Rattle.cw_model.specs.FactsRows.{RowFacts};
ghost use Rattle.cw_model.specs.FactsLogs.{AreShort, ConfigFacts};
ghost use Rattle.cw_model.specs.Facts.{AreFacts};
ghost use Rattle.cw_model.specs.StandsFor.{StandFor, IsFirstHarm};
ghost use Rattle.cw_model.specs.Tick.{tick};
ghost use Rattle.cw_model.specs.Quiet.{IsQuiet, IsDoneFor};
ghost use Rattle.cw_model.specs.Cases.{empty_cluster};
ghost use Rattle.cw_model.specs.WorkedCases.{overtaken, doubled, unbacked, one_worker, killed_worker, deaf_worker};
ghost use Rattle.cw_model.specs.WorkedCases.{no_bodies, one_byte, setting, name, part, plays, ticks, beginning, middle};
ghost use Rattle.cw_model.specs.WorkedCases.{ending, lines, led, started, committed, outrun, first_tag, shifted_cut};

/// Where nothing was ever written, the cluster is safe, whatever its feeds.
pub fn empty_cluster_is_safe()
    ensures { (setting : Setting) → IsSafe setting empty_cluster }
{}

/// It also meets the facts that keep a cluster safe, where no feed is too long for an offset to tell its places.
pub fn empty_cluster_meets_the_facts()
    ensures { (setting : Setting) → AreShort setting.feeds → AreFacts setting empty_cluster }
{}

/// A task of an older set that commits behind a standing fence breaks what fences promise (KIP-618).
pub fn older_commit_is_not_fenced()
    ensures { ¬ IsFenced overtaken }
{}

/// Two members that run one connector break what rebalancing promises (KIP-415).
pub fn shared_connector_is_not_disjoint()
    ensures { ¬ IsDisjoint doubled }
{}

/// A commit whose batch doesn't stand in the data log isn't backed.
pub fn commit_without_batch_is_not_backed()
    ensures { ¬ IsBacked unbacked }
{}

/// A task's cut that begins elsewhere than its batch isn't what it would commit.
pub fn shifted_cut_has_no_batch()
    ensures { ¬ HasItsBatch setting.feeds (batches_of committed.batches) first_tag shifted_cut }
{}

/// Empty files stand for the empty cluster.
pub fn empty_files_stand_for_the_empty_cluster()
    ensures { StandFor no_bodies empty_cluster }
{}

/// A body of one byte is none of the config log.
pub fn unreadable_body_is_the_first_harm()
    ensures { IsFirstHarm one_byte LogName.Config 0 Harm.Content }
{}

/// A worker that was just made isn't idle: it joins.
pub fn new_worker_joins()
    ensures { (tick 0 one_worker).0 ≡ Ok (Tick.Join 1) }
{}

/// A worker that was killed does nothing.
pub fn killed_worker_is_dead()
    ensures { tick 0 killed_worker ≡ (Ok Tick.Dead, killed_worker) }
{}

/// A worker that is deaf doesn't join.
pub fn deaf_worker_is_idle()
    ensures { tick 0 deaf_worker ≡ (Ok Tick.Idle, deaf_worker) }
{}

/// The first worker joins, closes and plans the first round, and leads.
pub fn first_worker_leads()
    ensures { plays beginning empty_cluster ≡ (
      codes "worker 0" ∷ codes "join 1" ∷ codes "close 1" ∷ codes "plan 1" ∷ codes "sync 1" ∷
          codes "lead 1" ∷ [],
      led,
    ) }
{}

/// A connector is created, planned and started; its task is proposed, committed, planned, and started once the fence is
/// written.
pub fn created_connector_starts()
    ensures { plays middle led ≡ (
      codes "created 0" ∷ codes "read" ∷ codes "join 2" ∷ codes "close 2" ∷ codes "plan 2" ∷ codes "sync 2" ∷
          codes "start c/a 0" ∷ codes "propose a 1" ∷ codes "read 2" ∷ codes "commit a 2" ∷ codes "read 3" ∷
          codes "join 3" ∷ codes "close 3" ∷ codes "plan 3" ∷ codes "sync 3" ∷ codes "fenced a 3" ∷
          codes "read 4" ∷ codes "start t/a/0 1" ∷ [],
      started,
    ) }
{}

/// The task initialises its producer, is verified, fetches its position, and commits what it read; the leader marks the
/// transaction.
pub fn started_task_commits()
    ensures { plays ending started ≡ (
      codes "init 1" ∷ codes "report c/a RUNNING" ∷ codes "verify 2" ∷ codes "report t/a/0 RUNNING" ∷
          codes "fetch" ∷ codes "produce {\"filename\":\"orders\"} 0 96" ∷ codes "offsets" ∷
          codes "commit {\"filename\":\"orders\"} 0 96" ∷
          codes "mark batches connect-cluster-a-0 1 0 commit" ∷
          codes "mark offsets connect-cluster-a-0 1 0 commit" ∷ [],
      committed,
    ) }
{}

/// What is then committed of the feed is its lines.
pub fn committed_records_are_the_lines()
    ensures { committed_records part committed.entries committed.batches ≡ lines }
{}

/// Nothing is left to do: the cluster is quiet.
pub fn story_ends_quiet()
    ensures { IsQuiet setting committed }
{}

/// The configs that were written, the rows and the instances are then as the facts that keep a cluster safe have them.
pub fn story_meets_the_facts()
    ensures configs { ConfigFacts committed.configs committed.configs committed.entries }
    ensures rows { RowFacts committed }
{}

/// The connector has all that it asks for.
pub fn story_ends_done()
    ensures { IsDoneFor setting committed name }
{}

/// A leader that was outrun loses its lead at its next write, and then claims it anew.
pub fn outrun_leader_loses_its_lead()
    ensures { (plays (ticks 2) outrun).0 ≡ codes "lostlead 1 2" ∷ codes "lead 3" ∷ [] }
{}
