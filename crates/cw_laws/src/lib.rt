//! Laws of the cluster's model: whatever happens next to a state that has all facts, it has them again.
//!
//! Its public functions have no body: each carries laws as clauses, an event a clause, and together they are the
//! induction by which every state of every run is safe. It stands on the model, and holds no code of the cluster.
#![tactic(auto)]

mod call_laws;
mod fact_laws;
mod group_laws;
mod item_laws;
mod leading_laws;
mod log_laws;
mod opening_laws;
mod operation_laws;
mod quiet_laws;
mod report_laws;
mod run_laws;
mod script_laws;
mod sink_laws;
mod source_laws;
mod tick_laws;
mod worker_laws;

pub use call_laws::calls_may_be_kept;
pub use fact_laws::{producer_facts_hold, world_facts_hold};
pub use group_laws::rounds_keep_facts;
pub use item_laws::{items_keep_facts, starts_keep_facts};
pub use leading_laws::{configs_keep_facts, lead_keeps_facts, set_offsets_keep_facts};
pub use log_laws::{logs_keep_facts, markers_tell_how_transactions_ended};
pub use opening_laws::{
    left_logs_meet_no_harm, opening_keeps_facts, runs_from_openings_are_safe,
    written_logs_open_again,
};
pub use operation_laws::{
    calls_write_what_may_be_written, operations_find_leader_and_name, operations_may_be_written,
};
pub use quiet_laws::{
    quiet_group_is_settled, quiet_is_done, quiet_items_are_assigned, quiet_items_run,
    tasks_at_their_end_are_through,
};
pub use report_laws::reports_keep_facts;
pub use run_laws::{
    answers_stay_true, closing_keeps_facts, cluster_only_grows, each_step_keeps_facts,
    every_state_of_a_run_is_safe, facts_are_safe, journal_keeps_facts,
};
pub use script_laws::script_producers_keep_facts;
pub use sink_laws::sinks_keep_facts;
pub use source_laws::{
    sources_begin_and_keep_facts, transactions_keep_facts, verifying_keeps_facts,
};
pub use tick_laws::{
    fences_may_be_written, polls_take_what_may_be_taken, proposals_may_be_written,
    rules_make_events_that_may_be_made,
};
pub use worker_laws::workers_keep_facts;
