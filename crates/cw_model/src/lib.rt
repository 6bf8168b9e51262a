//! The cluster as definitions: its state as a record of plain lists, each event as a function from a state to an
//! answer and a state, the rules by which a worker ticks, and what it means that a state is safe.
//!
//! It holds no code of the cluster: the crates above prove that what they do is what stands here. Its public
//! functions carry worked cases and laws of these definitions, each as a contract.
//! It stands on the definitions of the pieces: names, transactions, the group and its plans, the config log,
//! offsets, statuses, data, feeds and connector classes.
#![tactic(auto)]

mod alterations;
mod cases;
mod did;
mod fault;
mod instance;
mod journal;
mod judged;
mod opening;
mod rebalances;
mod refusals;
mod reports;
mod row;
mod steps;
mod tick;
mod yields;

pub use alterations::{
    config_log_without_offsets_is_full, config_log_without_room_is_full,
    offsets_are_altered_once_stopped, offsets_are_reset,
};
pub use cases::{
    late_task_is_stale, later_task_goes_on_where_the_last_commit_ended,
    new_task_goes_on_once_fenced, new_task_waits_for_its_fence, old_leader_is_fenced_and_gives_up,
    zombie_commits_no_more_once_fenced,
};
pub use did::Did;
pub use fault::WorldFault;
pub use instance::{Cut, Instance, InstancePhase, Trace};
pub use journal::JournalEntry;
pub use judged::{
    commit_without_batch_is_not_backed, committed_records_are_the_lines, created_connector_starts,
    deaf_worker_is_idle, empty_cluster_is_safe, empty_cluster_meets_the_facts,
    empty_files_stand_for_the_empty_cluster, first_worker_leads, killed_worker_is_dead,
    new_worker_joins, older_commit_is_not_fenced, outrun_leader_loses_its_lead,
    shared_connector_is_not_disjoint, shifted_cut_has_no_batch, started_task_commits,
    story_ends_done, story_ends_quiet, story_meets_the_facts, unreadable_body_is_the_first_harm,
};
pub use opening::{compaction_lengthens_no_log, stored_logs_stand_for_one_state};
pub use rebalances::{
    clock_never_goes_back, lost_task_waits_through_the_delay, rebalance_revokes_before_it_gives,
};
pub use refusals::{
    closed_cluster_takes_no_event, ended_instance_takes_no_event, killed_worker_takes_no_event,
    refused_event_changes_nothing,
};
pub use reports::{failed_task_is_reported_with_its_trace, restart_reaches_workers_that_hear};
pub use row::{Fencing, Row, RowPhase};
pub use steps::{
    committed_records_are_stable_once_marked, compaction_leaves_spellings_as_they_are,
    config_log_keeps_the_last_of_each_key, cut_ends_behind_a_line,
    offset_log_keeps_the_last_committed_of_each_part, script_producer_is_judged_by_its_epoch,
    sink_stores_how_far_it_came, task_commits_records_with_their_offset,
};
pub use tick::Tick;
pub use yields::what_is_yielded_is_the_feeds_yield;
