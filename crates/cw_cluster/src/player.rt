//! Who plays a script: what runs, and the answers until they are written.
ghost use Rattle.std.specs.Prelude.{◌≡◌, ◌<◌, [], Some, None, Ok, length};
ghost use Rattle.cw_script.specs.Spelling.{IsSayable};
ghost use Rattle.cw_script.specs.declared.directive.Directive.TheVariants as directive;
ghost use Rattle.cw_run.specs.Run.{missing};
ghost use Rattle.cw_cluster.specs.Breaking.{IsAlive};
ghost use Rattle.cw_cluster.specs.Events.{IsPlain};
ghost use Rattle.cw_cluster.specs.Lined.{PlaysOver, PlaysSaid, SaysSettled, moved_text};
ghost use Rattle.cw_cluster.specs.Saying.{Says};

use crate::answers::Answers;
use crate::begun::Begun;
use crate::directives::{missing, play};
use crate::outcome::Outcome;
use crate::requests::play_rest;
use crate::running::Running;
use crate::settling::{is_quiet, settle};
use crate::stepping::play_step;
use crate::turn::TurnFault;
use cw_disk::Disk;
use cw_io::Outlet;
use cw_lines::{DriveEnd, LinePlayer};
use cw_script::{Directive, ScriptFault, read_line};
use cw_world::World;

/// What runs, and the answers to its script that aren't written yet.
pub struct Player<K: Begun, D: Disk, U: Outlet> {
    pub(crate) running: Running<K, D, U>,
    pub(crate) answers: Answers,
}

impl<K: Begun, D: Disk, U: Outlet> Player<K, D, U> {
    /// No answer waits.
    pub fn new(running: Running<K, D, U>) -> Player<K, D, U>
        ensures running { result.running ≡ running }
        ensures answers { result.answers ≡ [] }
    {
        let answers = Answers::new(running.alloc);
        Player { running, answers }
    }

    /// The world that it plays over.
    pub fn world(&self) -> &World<D>
        ensures { result.now ≡ self.now.running.world }
    {
        &self.running.world
    }

    /// What runs, without the answers that wait.
    pub fn into_running(self) -> Running<K, D, U>
        ensures { result ≡ self.running }
    {
        let Player {
            running,
            answers: _,
        } = self;
        running
    }

    // Plays a directive, unless it names a worker or an instance that never was.
    fn play(&mut self, number: u64, directive: &Directive) -> Result<(), DriveEnd>
        requires alive { IsAlive D.Disk self.old.running.world }
        requires sayable { IsSayable directive.now }
        ensures { PlaysSaid D.Disk U.Outlet number (Ok (Some directive.now)) self.old.running.world
            self.new.running.world self.old.running.outlet self.new.running.outlet
            self.old.answers self.new.answers result }
    {
        match missing(directive, self.running.world.cluster()) {
            Some(kind) => Err(DriveEnd::BadScript { line: number, kind }),
            None => self.play_there(directive),
        }
    }

    // Plays a directive that names nobody who never was.
    fn play_there(&mut self, directive: &Directive) -> Result<(), DriveEnd>
        requires alive { IsAlive D.Disk self.old.running.world }
        requires sayable { IsSayable directive.now }
        requires there { missing directive.now self.old.running.world.state ≡ None }
        ensures { PlaysOver D.Disk U.Outlet directive.now self.old.running.world self.new.running.world
            self.old.running.outlet self.new.running.outlet self.old.answers self.new.answers result }
    {
        match directive {
            Directive::Step(i) => self.play_step(*i),
            Directive::Settle(most) => self.play_settle(*most),
            Directive::Rest {
                worker,
                method,
                target,
                body,
            } => self.play_rest(
                *worker,
                method.as_slice(),
                target.as_slice(),
                body.as_slice(),
            ),
            _ => self.play_plain(directive),
        }
    }

    // Plays the directive that an instance takes a step.
    fn play_step(&mut self, i: u64) -> Result<(), DriveEnd>
        requires alive { IsAlive D.Disk self.old.running.world }
        requires there { i < length self.old.running.world.state.instances }
        ensures { PlaysOver D.Disk U.Outlet (directive.Step i) self.old.running.world self.new.running.world
            self.old.running.outlet self.new.running.outlet self.old.answers self.new.answers result }
    {
        play_step(
            self.running.alloc,
            &mut self.running.world,
            i,
            &mut self.running.outlet,
            &mut self.answers,
        )
    }

    // Plays a request.
    fn play_rest(
        &mut self,
        worker: u64,
        method: &[u8],
        target: &[u8],
        body: &[u8],
    ) -> Result<(), DriveEnd>
        requires alive { IsAlive D.Disk self.old.running.world }
        requires there { worker < length self.old.running.world.state.rows }
        ensures { PlaysOver D.Disk U.Outlet (directive.Rest worker method.now target.now body.now)
            self.old.running.world self.new.running.world self.old.running.outlet self.new.running.outlet
            self.old.answers self.new.answers result }
    {
        play_rest(
            self.running.alloc,
            &mut self.running.world,
            worker,
            method,
            target,
            body,
            &mut self.answers,
        )
    }

    // Plays a directive of the world alone.
    fn play_plain(&mut self, directive: &Directive) -> Result<(), DriveEnd>
        requires alive { IsAlive D.Disk self.old.running.world }
        requires sayable { IsSayable directive.now }
        requires there { missing directive.now self.old.running.world.state ≡ None }
        requires plain { IsPlain directive.now }
        ensures { PlaysOver D.Disk U.Outlet directive.now self.old.running.world self.new.running.world
            self.old.running.outlet self.new.running.outlet self.old.answers self.new.answers result }
    {
        play(
            self.running.alloc,
            &mut self.running.world,
            directive,
            &mut self.answers,
        )
    }

    // Plays the directive that the cluster settles, and says whether it is quiet and how often something moved.
    fn play_settle(&mut self, most: u64) -> Result<(), DriveEnd>
        requires alive { IsAlive D.Disk self.old.running.world }
        ensures { PlaysOver D.Disk U.Outlet (directive.Settle most) self.old.running.world self.new.running.world
            self.old.running.outlet self.new.running.outlet self.old.answers self.new.answers result }
    {
        let settled = settle(&mut self.running, most);
        self.say_settled(settled)
    }

    // Says how it settled.
    fn say_settled(&mut self, settled: Result<u64, TurnFault>) -> Result<(), DriveEnd>
        ensures running { self.new.running ≡ self.old.running }
        ensures says { SaysSettled self.old.running.world.setting self.old.running.world.state settled self.old.answers
            self.new.answers result }
    {
        match settled {
            Ok(moved) => self.say_moved(moved),
            Err(TurnFault::Refused(fault)) => {
                let running = &self.running;
                let group = running.world.cluster().group_name();
                self.answers.say(group, 0, Err(fault))
            }
            Err(TurnFault::Memory) => Err(DriveEnd::Memory),
            Err(TurnFault::Store { disk, count }) => Err(DriveEnd::StoreFault { disk, count }),
            Err(TurnFault::Outlet) => Err(DriveEnd::OutletFault),
        }
    }

    // Says whether it is quiet, and how often something moved.
    fn say_moved(&mut self, moved: u64) -> Result<(), DriveEnd>
        ensures running { self.new.running ≡ self.old.running }
        ensures says { Says (Ok (moved_text self.old.running.world.setting moved self.old.running.world.state))
            self.old.answers self.new.answers result }
    {
        let running = &self.running;
        let quiet = is_quiet(running.alloc, running)?;
        let group = running.world.cluster().group_name();
        self.answers
            .say(group, 0, Ok(Outcome::Settled { quiet, moved }))
    }
}

impl<K: Begun, D: Disk, U: Outlet> LinePlayer for Player<K, D, U> {
    ghost use Rattle.cw_model.specs.State.{Setting};
    ghost use Rattle.cw_run.specs.Ran.{Ran};
    ghost use Rattle.cw_run.specs.Rules.{drive_rules};
    ghost use Rattle.cw_cluster.specs.Breaking.{IsAlive};
    ghost use Rattle.cw_cluster.specs.Driven.{faults_of};
    ghost use Rattle.cw_cluster.specs.Lined.{IsBrokenInLine, playing_of};

    ghost Setting = { Setting };

    ghost State = { Ran };

    ghost rules = { drive_rules };

    ghost playing = { λ p. playing_of D.Disk U.Outlet p.running.world p.running.outlet p.answers };

    ghost alive = { λ p. IsAlive D.Disk p.running.world };

    ghost faults = { λ p. faults_of D.Disk U.Outlet p.running.world p.running.outlet };

    ghost broken = { λ p number line ran words.
        IsBrokenInLine D.Disk U.Outlet p.running.world p.running.outlet number line ran words };

    fn play_line(&mut self, number: u64, line: &[u8]) -> Result<(), DriveEnd> {
        match read_line(self.running.alloc, line, number) {
            Ok(Some(directive)) => self.play(number, &directive),
            Ok(None) => Ok(()),
            Err(ScriptFault::BadLine { number, kind }) => {
                Err(DriveEnd::BadScript { line: number, kind })
            }
            Err(ScriptFault::Memory) => Err(DriveEnd::Memory),
        }
    }

    fn answers(&self) -> &[u8] {
        self.answers.as_bytes()
    }

    fn forget(&mut self) {
        self.answers.forget();
    }
}
