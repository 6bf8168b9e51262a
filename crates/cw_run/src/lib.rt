//! The script of a whole cluster: what each of its lines does, and what it is answered.
//!
//! Its definitions say the run of a script as a function of the cluster's state, the feeds and the lines: the answers,
//! byte for byte, and the state behind each. Its public functions carry worked cases and laws of that run, each as a
//! contract: every state of a run is safe, and where a disk fails in a line, the states before its event and behind it
//! are states of a run.
//! It stands on the cluster's model and its laws, on what requests come to and sinks hand out, and on the language of
//! scripts and its lines; no world is known here.
#![tactic(auto)]

mod cases;
mod flight_laws;
mod laws;

pub use cases::{
    cluster_settles_half_way, connector_is_created_once_there_is_a_leader,
    fewer_tasks_are_compacted, full_log_ends_the_script, killed_worker_answers_nothing,
    lines_that_say_nothing_end_the_script, member_has_an_id, producers_are_judged_by_their_epochs,
    request_is_answered_that_a_log_is_full, source_is_read_again_from_an_altered_offset,
    zombie_is_fenced,
};
pub use flight_laws::what_is_in_flight_is_reached;
pub use laws::{
    each_interrupted_line_is_a_run, each_line_is_a_run, each_line_on_its_way_is_a_run,
    each_script_is_a_run, each_script_is_played_alike, settling_is_a_run, turns_are_runs,
    what_is_reached_is_safe,
};
