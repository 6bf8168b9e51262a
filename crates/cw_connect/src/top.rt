//! The top call: what the program does for its words, its disks, its feeds, its input and its output.
ghost use Rattle.std.specs.Prelude.{◌≡◌, ℕ, List, Some, Ok, map, string_bytes};
ghost use Rattle.cw_lines.specs.Players.{player_of};
ghost use Rattle.cw_lines.specs.Plays.{behind_lines};
ghost use Rattle.cw_log.specs.declared.fault.Harm.{Harm};
ghost use Rattle.cw_model.specs.Facts.{AreFacts};
ghost use Rattle.cw_model.specs.Grows.{Grows};
ghost use Rattle.cw_model.specs.Journal.{IsTrueJournal};
ghost use Rattle.cw_model.specs.Reopening.{reopened, stored_of};
ghost use Rattle.cw_model.specs.Safe.{IsSafe};
ghost use Rattle.cw_model.specs.StandsFor.{Stored, StandFor};
ghost use Rattle.cw_model.specs.State.{Cluster, Setting};
ghost use Rattle.cw_open.specs.Judged.{HasFirstHarm};
ghost use Rattle.cw_open.specs.Leaving.{IsSameBesidesSides, StandForLists};
ghost use Rattle.cw_open.specs.Reopened.{DiskFiles};
ghost use Rattle.cw_script.specs.Lines.{line_of};
ghost use Rattle.cw_script.specs.declared.directive.Directive.{Directive};
ghost use Rattle.cw_types.specs.declared.logs.DiskName.{DiskName};
ghost use Rattle.cw_words.specs.Asked.{IsInRange, command_of};
ghost use Rattle.cw_run.specs.Flight.{IsInFlight};
ghost use Rattle.cw_run.specs.Ran.{Ran};
ghost use Rattle.cw_run.specs.Reaches.{HaveNames, Reaches};
ghost use Rattle.cw_run.specs.Rules.{drive_rules};
ghost use Rattle.cw_connect.specs.Ended.{HasEnded};

use crate::auditing::{Report, open_and_audit};
use crate::driving::{Played, open_and_drive};
use crate::generating::make_and_play;
use crate::serving::open_and_serve;
use crate::status::Status;
use cw_disk::{Disk, Disks};
use cw_io::{Outlet, Shelf, Sink, Source};
use cw_laws::written_logs_open_again;
use cw_net::{Clock, Gate, Listener};
use cw_open::files_open_one_way;
use cw_run::{
    each_line_on_its_way_is_a_run, each_script_is_a_run, each_script_is_played_alike,
    what_is_in_flight_is_reached, what_is_reached_is_safe,
};
use cw_words::{Command, read_words};
use cw_world::{Journal, Receipt};
use std::alloc::Global;
use std::sync::Wait;
use std::thread::Threads;

/// What a run of the program gave.
#[derive(Drop)]
pub struct Outcome<D, U, N> {
    /// How it ended.
    pub status: Status,
    /// The disks that were handed in.
    pub disks: Disks<D>,
    /// The outlet that was handed in.
    pub outlet: U,
    /// The listener that was handed in.
    pub net: N,
    /// The journal of the calls that a server answered; none where there was no server.
    pub journal: Journal,
    /// The receipts of these calls. At every status but Disagree they are the journal, in its order.
    pub receipts: Vec<Receipt>,
}

/// The program. The words are judged first; where they are no command, nothing is touched. The command `drive` then
/// loads the feeds, opens the disks as a cluster, and plays the script that the input holds, writing an answer line
/// for each directive. `audit` loads the feeds and opens the disks too, and writes what the logs hold. `gen` makes a
/// script from its number, plays it over disks of its own in memory, and writes what it comes to; of what is handed in
/// it touches the output alone. `serve` loads the feeds and opens the disks too, and serves Connect's REST API to the
/// links that the listener gives, by threads that share the cluster.
pub fn connect<R, D, I, O, H, U, N, C, G>(
    rt: &R,
    words: &[String],
    disks: Disks<D>,
    input: &mut I,
    output: &mut O,
    shelf: &mut H,
    outlet: U,
    net: N,
    clock: C,
    gate: &G,
) -> Outcome<D, U, N>
where
    R: AllocGlobal + Threads + Wait + std::rt::Clock + Sync,
    D: Disk + Send,
    I: Source,
    O: Sink,
    H: Shelf,
    U: Outlet + Send,
    N: Listener,
    C: Clock + Send + Drop,
    G: Gate + Sync,
    // What is due for the command that the words are, why a run ends otherwise, and which counts of faults rose.
    ensures ended { HasEnded D.Disk I.Source O.Sink H.Shelf U.Outlet N.Listener N.Link.Link
        (map string_bytes words.now) result.status (record {
          disks = disks;
          input = input.old;
          output = output.old;
          shelf = shelf.old;
          outlet = outlet;
          net = net;
        })
        (record {
          disks = result.disks;
          input = input.new;
          output = output.new;
          shelf = shelf.new;
          outlet = result.outlet;
          net = result.net;
        }) result.journal result.receipts.items }

    // Behind any lines over a state of the cluster, and where one of them was left on its way, the state is safe, its
    // journal true, and all facts hold in it again.
    ensures safe { (setting : Setting) (ran : Ran) (script : List ℕ) (lines : ℕ) → HaveNames setting →
        AreFacts setting ran.cluster →
        IsSafe setting (behind_lines (player_of drive_rules setting) lines script ran).store.cluster }
    ensures journal { (setting : Setting) (ran : Ran) (script : List ℕ) (lines : ℕ) → HaveNames setting →
        AreFacts setting ran.cluster →
        IsTrueJournal setting (behind_lines (player_of drive_rules setting) lines script ran).store.cluster }
    ensures facts { (setting : Setting) (ran : Ran) (script : List ℕ) (lines : ℕ) → HaveNames setting →
        AreFacts setting ran.cluster →
        AreFacts setting (behind_lines (player_of drive_rules setting) lines script ran).store.cluster }
    // What was written, answered and read before stands in it: no worker's view of the configs gets shorter.
    ensures grows { (setting : Setting) (ran : Ran) (script : List ℕ) (lines : ℕ) → HaveNames setting →
        AreFacts setting ran.cluster →
        Grows ran.cluster (behind_lines (player_of drive_rules setting) lines script ran).store.cluster }
    ensures amid { (setting : Setting) (number : ℕ) (line : List ℕ) (ran left : Ran) → HaveNames setting →
        AreFacts setting ran.cluster → drive_rules.amid setting number line ran left →
        IsSafe setting left.cluster }
    ensures amid_facts { (setting : Setting) (number : ℕ) (line : List ℕ) (ran left : Ran) → HaveNames setting →
        AreFacts setting ran.cluster → drive_rules.amid setting number line ran left →
        AreFacts setting left.cluster }

    // Where a disk failed in a line, all facts hold in the state before the event that was in flight, and behind it.
    ensures before_flight { (setting : Setting) (line : List ℕ) (directive : Directive) (ran at : Ran)
        (next : Cluster) → HaveNames setting → AreFacts setting ran.cluster → line_of line ≡ Ok (Some directive) →
        IsInFlight setting directive ran at next → AreFacts setting at.cluster }
    ensures behind_flight { (setting : Setting) (line : List ℕ) (directive : Directive) (ran at : Ran)
        (next : Cluster) → HaveNames setting → AreFacts setting ran.cluster → line_of line ≡ Ok (Some directive) →
        IsInFlight setting directive ran at next → AreFacts setting next }

    // The same of each state that a run of the cluster's events leads to, as each state of a server.
    ensures reached_safe { (setting : Setting) (s t : Cluster) → Reaches setting s t → AreFacts setting s →
        IsSafe setting t }
    ensures reached_journal { (setting : Setting) (s t : Cluster) → Reaches setting s t → AreFacts setting s →
        IsTrueJournal setting t }
    ensures reached_facts { (setting : Setting) (s t : Cluster) → Reaches setting s t → AreFacts setting s →
        AreFacts setting t }
    ensures reached_grows { (setting : Setting) (s t : Cluster) → Reaches setting s t → AreFacts setting s →
        Grows s t }

    // Whatever files stand for the logs of such a state have no harm, and open to it, without its workers.
    ensures harmless { (setting : Setting) (s : Cluster) (files : DiskFiles) (at : DiskName) (place : ℕ) (harm : Harm) →
        AreFacts setting s → StandForLists files (stored_of s) → ¬ HasFirstHarm files at place harm }
    ensures reopens { (setting : Setting) (s t : Cluster) (files : DiskFiles) (other : Stored) → AreFacts setting s →
        StandForLists files (stored_of s) → StandForLists files other → StandFor other t →
        IsSameBesidesSides (reopened s) t }
{
    each_script_is_a_run();
    each_script_is_played_alike();
    each_line_on_its_way_is_a_run();
    what_is_in_flight_is_reached();
    what_is_reached_is_safe();
    written_logs_open_again();
    files_open_one_way();
    run_words(
        rt,
        rt.alloc(),
        words,
        disks,
        input,
        output,
        shelf,
        outlet,
        net,
        clock,
        gate,
    )
}

// Reads the words, and runs their command.
fn run_words<R, D, I, O, H, U, N, C, G>(
    rt: &R,
    alloc: Global,
    words: &[String],
    disks: Disks<D>,
    input: &mut I,
    output: &mut O,
    shelf: &mut H,
    outlet: U,
    net: N,
    clock: C,
    gate: &G,
) -> Outcome<D, U, N>
where
    R: AllocGlobal + Threads + Wait + std::rt::Clock + Sync,
    D: Disk + Send,
    I: Source,
    O: Sink,
    H: Shelf,
    U: Outlet + Send,
    N: Listener,
    C: Clock + Send + Drop,
    G: Gate + Sync,
    ensures { HasEnded D.Disk I.Source O.Sink H.Shelf U.Outlet N.Listener N.Link.Link
        (map string_bytes words.now) result.status (record {
          disks = disks;
          input = input.old;
          output = output.old;
          shelf = shelf.old;
          outlet = outlet;
          net = net;
        })
        (record {
          disks = result.disks;
          input = input.new;
          output = output.new;
          shelf = shelf.new;
          outlet = result.outlet;
          net = result.net;
        }) result.journal result.receipts.items }
{
    match read_words(alloc, words) {
        Ok(command) => run_command(
            rt, alloc, command, disks, input, output, shelf, outlet, net, clock, gate,
        ),
        Err(fault) => Outcome {
            status: Status::of_words(fault),
            disks,
            outlet,
            net,
            journal: Journal::none(),
            receipts: Vec::new(alloc),
        },
    }
}

// Runs a command.
fn run_command<R, D, I, O, H, U, N, C, G>(
    rt: &R,
    alloc: Global,
    command: Command,
    disks: Disks<D>,
    input: &mut I,
    output: &mut O,
    shelf: &mut H,
    outlet: U,
    net: N,
    clock: C,
    gate: &G,
) -> Outcome<D, U, N>
where
    R: AllocGlobal + Threads + Wait + std::rt::Clock + Sync,
    D: Disk + Send,
    I: Source,
    O: Sink,
    H: Shelf,
    U: Outlet + Send,
    N: Listener,
    C: Clock + Send + Drop,
    G: Gate + Sync,
    requires ranges { IsInRange command }
    ensures { (words : List (List ℕ)) → command_of words ≡ Some command →
        HasEnded D.Disk I.Source O.Sink H.Shelf U.Outlet N.Listener N.Link.Link words result.status
        (record {
          disks = disks;
          input = input.old;
          output = output.old;
          shelf = shelf.old;
          outlet = outlet;
          net = net;
        })
        (record {
          disks = result.disks;
          input = input.new;
          output = output.new;
          shelf = shelf.new;
          outlet = result.outlet;
          net = result.net;
        }) result.journal result.receipts.items }
{
    each_script_is_played_alike();
    written_logs_open_again();
    files_open_one_way();
    match command {
        Command::Drive(options) => {
            let Played {
                status,
                disks,
                outlet,
            } = open_and_drive(alloc, options, disks, input, output, shelf, outlet);
            Outcome {
                status,
                disks,
                outlet,
                net,
                journal: Journal::none(),
                receipts: Vec::new(alloc),
            }
        }
        Command::Audit(options) => {
            let Report { status, disks } = open_and_audit(alloc, options, disks, output, shelf);
            Outcome {
                status,
                disks,
                outlet,
                net,
                journal: Journal::none(),
                receipts: Vec::new(alloc),
            }
        }
        Command::Gen(options) => Outcome {
            status: make_and_play(alloc, options, output),
            disks,
            outlet,
            net,
            journal: Journal::none(),
            receipts: Vec::new(alloc),
        },
        Command::Serve(options) => {
            open_and_serve(rt, alloc, options, disks, shelf, outlet, net, clock, gate)
        }
    }
}
