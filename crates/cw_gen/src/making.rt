//! Makes a script and plays it, directive by directive.
ghost use Rattle.std.specs.Prelude.{◌≡◌, ◌≤◌, ◌<◌, ℕ, List, [], length, min, true, Some, None, Ok, IfOk, IfErr, OnOk};
ghost use Rattle.cw_script.specs.declared.directive.Directive.{Directive};
ghost use Rattle.cw_script.specs.Lines.{line_of};
ghost use Rattle.cw_script.specs.Spelling.{spelled};
ghost use Rattle.cw_cluster.specs.Breaking.{IsAlive, tell_all};
ghost use Rattle.cw_run.specs.Run.{missing, play_line};
ghost use Rattle.cw_gen.specs.Playing.{EndsSo, HasPlayed, HasTurned, IsPlayable, IsSame, IsUnfinished, StandsBehind};
ghost use Rattle.cw_gen.specs.Playing.{StopsSo};
ghost use Rattle.cw_gen.specs.Scripts.{fenced_front, making, next_in, one_if, run_of, says_fenced};

use crate::directives::due;
use crate::draws::Draws;
use cw_cluster::{Begun, Player};
use cw_disk::Disk;
use cw_io::Outlet;
use cw_lines::{DriveEnd, LinePlayer};
use cw_run::each_line_is_a_run;
use cw_script::{Directive, lines_are_directives};
use cw_types::LogName;
use std::alloc::{AllocError, Global};

/// Why a script wasn't made and played to its end.
#[derive(Drop)]
pub(crate) enum Unfinished {
    /// A log has no room for what a directive, of no request, was to write.
    Full {
        /// The log.
        log: LogName,
        /// Its length in bytes.
        length: u64,
        /// The bytes that were to be appended.
        frame: u64,
    },
    /// Want of memory.
    Memory,
}

impl From<AllocError> for Unfinished {
    ghost use Rattle.std.specs.Prelude.{◌≡◌};
    ghost use Rattle.cw_gen.specs.declared.making.Unfinished.TheVariants.{Memory};

    ghost from_gives = { λ _ why. why ≡ Memory };

    fn from(_: AllocError) -> Unfinished {
        Unfinished::Memory
    }
}

/// Makes so many directives from a number on and plays them. It answers how many answers said that a step was fenced.
pub(crate) fn make<K: Begun, D: Disk, U: Outlet>(
    alloc: Global,
    player: &mut Player<K, D, U>,
    start: u64,
    count: u64,
) -> Result<u64, Unfinished>
    requires steady { (disk : D) → D.count disk ≡ 0 }
    requires lasting { (outlet : U) → U.faults outlet ≡ 0 }
    requires few { count ≤ 1000000 }
    requires no_feeds { player.old.running.world.setting.feeds ≡ [] }
    requires begins { StandsBehind D.Disk player.old.running.world.setting [] player.old.running.world }
    requires silent { player.old.answers ≡ [] }
    ensures fenced { IfOk result (λ n. n ≡ (making player.old.running.world.setting start count).fenced) }
    ensures stands { OnOk result (StandsBehind D.Disk player.old.running.world.setting
        (making player.old.running.world.setting start count).lines player.new.running.world) }
    ensures ends { IfErr result (EndsSo (run_of player.old.running.world.setting
        (making player.old.running.world.setting start count).lines)) }
{
    let mut draws = Draws::new(start);
    let mut fenced = 0;
    for made in 0..count {
        fenced += turn(alloc, player, &mut draws, made)?;
    }
    Ok(fenced)
}

// Makes one directive more and plays it. It answers how many answers, one or none, said that a step was fenced.
fn turn<K: Begun, D: Disk, U: Outlet>(
    alloc: Global,
    player: &mut Player<K, D, U>,
    draws: &mut Draws,
    made: u64,
) -> Result<u64, Unfinished>
    requires steady { (disk : D) → D.count disk ≡ 0 }
    requires lasting { (outlet : U) → U.faults outlet ≡ 0 }
    requires few { made < 1000000 }
    requires no_feeds { player.old.running.world.setting.feeds ≡ [] }
    requires alive { IsAlive D.Disk player.old.running.world }
    requires tells { tell_all D.Disk player.old.running.world.logs ≡ true }
    requires crowd { min made 3 ≤ length player.old.running.world.state.rows }
    requires silent { player.old.answers ≡ [] }
    ensures turned { IfOk result (λ fenced. HasTurned D.Disk player.old.running.world.setting made
        player.old.running.world.state draws.old draws.new fenced player.new.running.world) }
    ensures silent { OnOk result (player.new.answers ≡ []) }
    ensures stops { IfErr result (StopsSo player.old.running.world.setting made
        player.old.running.world.state draws.old) }
{
    let directive = next(alloc, player, draws, made)?;
    lines_are_directives();
    each_line_is_a_run();
    player.world().is_safe();
    act(alloc, player, made + 1, &directive)
}

// Plays a directive, and answers how many answers, one or none, said that a step was fenced.
fn act<K: Begun, D: Disk, U: Outlet>(
    alloc: Global,
    player: &mut Player<K, D, U>,
    number: u64,
    directive: &Directive,
) -> Result<u64, Unfinished>
    requires steady { (disk : D) → D.count disk ≡ 0 }
    requires lasting { (outlet : U) → U.faults outlet ≡ 0 }
    requires alive { IsAlive D.Disk player.old.running.world }
    requires few { number ≤ 1000000 }
    requires playable { IsPlayable directive.now player.old.running.world.state }
    requires silent { player.old.answers ≡ [] }
    ensures played { IfOk result (λ fenced. (answers : List ℕ) × HasPlayed D.Disk
        (play_line player.old.running.world.setting number (spelled directive.now)
        player.old.running.world.state)
        player.old.running.world player.new.running.world answers ×
        (fenced ≡ one_if (says_fenced directive.now answers))) }
    ensures silent { OnOk result (player.new.answers ≡ []) }
    ensures ends { IfErr result (EndsSo
        (play_line player.old.running.world.setting number (spelled directive.now)
        player.old.running.world.state)) }
{
    let line = directive.spell(alloc)?;
    lines_are_directives();
    play(player, number, line.as_slice())?;
    let fenced = count_fenced(alloc, directive, player.answers())?;
    player.forget();
    Ok(fenced)
}

// Makes the directive that is due.
fn next<K: Begun, D: Disk, U: Outlet>(
    alloc: Global,
    player: &Player<K, D, U>,
    draws: &mut Draws,
    made: u64,
) -> Result<Directive, AllocError>
    requires { min made 3 ≤ length player.now.running.world.state.rows }
    ensures due { IfOk result (λ directive. next_in made player.now.running.world.state draws.old ≡
        record { directive = directive; number = draws.new }) }
    ensures playable { IfOk result (λ directive. IsPlayable directive player.now.running.world.state) }
{
    let cluster = player.world().cluster();
    let instances = cluster.instances();
    let moment = cluster.moment();
    due(alloc, draws, made, instances, moment)
}

// Plays a line that spells a directive, which names nobody who never was. No disk fails, and no line is bad.
fn play<K: Begun, D: Disk, U: Outlet>(
    player: &mut Player<K, D, U>,
    number: u64,
    line: &[u8],
) -> Result<(), Unfinished>
    requires steady { (disk : D) → D.count disk ≡ 0 }
    requires lasting { (outlet : U) → U.faults outlet ≡ 0 }
    requires alive { IsAlive D.Disk player.old.running.world }
    requires few { number ≤ 1000000 }
    requires short { length line.now ≤ 65536 }
    requires says { (d : Directive) × (line_of line.now ≡ Ok (Some d)) ×
        (missing d player.old.running.world.state ≡ None) }
    requires silent { player.old.answers ≡ [] }
    ensures played { OnOk result (HasPlayed D.Disk
        (play_line player.old.running.world.setting number line.now player.old.running.world.state)
        player.old.running.world player.new.running.world player.new.answers) }
    ensures ends { IfErr result (EndsSo
        (play_line player.old.running.world.setting number line.now player.old.running.world.state)) }
{
    match player.play_line(number, line) {
        Ok(()) => Ok(()),
        Err(end) => Err(why_unfinished(end)),
    }
}

// What ended a script in which no disk failed and no line was bad.
fn why_unfinished(end: DriveEnd) -> Unfinished
    requires { IsUnfinished end }
    ensures { IsSame end result }
{
    match end {
        DriveEnd::Full { log, length, frame } => Unfinished::Full { log, length, frame },
        DriveEnd::Memory => Unfinished::Memory,
        _ => unreachable!(),
    }
}

// How many answers, one or none, say that the step of a directive was fenced.
fn count_fenced(alloc: Global, directive: &Directive, answer: &[u8]) -> Result<u64, AllocError>
    ensures { IfOk result (λ fenced. fenced ≡ one_if (says_fenced directive.now answer.now)) }
{
    match directive {
        Directive::Step(i) => {
            let front = fenced_front(alloc, *i)?;
            if answer.starts_with(front.as_slice()) {
                return Ok(1);
            }
            Ok(0)
        }
        _ => Ok(0),
    }
}

// How such an answer begins.
fn fenced_front(alloc: Global, i: u64) -> Result<Vec<u8>, AllocError>
    ensures { IfOk result (λ text. text.items ≡ fenced_front i) }
{
    let mut text = b"step ".to_vec(alloc)?;
    text.extend_from_slice(i.to_string(alloc)?.as_bytes())?;
    text.extend_from_slice(b" fenced ")?;
    Ok(text)
}
