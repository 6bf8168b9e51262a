//! The records of the config log, and what they say of each connector.
//!
//! What a state says stays askable while the memory of the next records is taken, and putting them in takes none. So
//! there are two states: the one that is asked, and a second one, which takes the next records first. Once they stand
//! in the log, the two change places, and the one that was asked so far reads them when the next ones come.
ghost use Rattle.std.specs.Prelude.{◌≡◌, ◌++◌, ◌+◌, ◌≤◌, [], ℕ, drop, length, vec_len, vec_capacity, IfOk, IfErr, OnOk};
ghost use Rattle.std.specs.Prelude.{OnErr};
ghost use Rattle.cw_config.specs.Compaction.{AreAccepted};
ghost use Rattle.cw_topics.specs.Configs.{IsBehind, Reads, ReadsAlone};
ghost use Rattle.cw_topics.specs.declared.configs.Twin.TheVariants as second;

use cw_config::{ConfigRecord, ConfigState, ReservedConfigs};
use std::alloc::{AllocError, Global};
use std::marker::Model;
use std::mem::replace;

/// The state that takes the next records first.
#[derive(Drop)]
pub(crate) enum Twin {
    /// It has read so many of the records.
    Behind { state: ConfigState, read: usize },
    /// It has read all of them, and has room for a frame.
    Ahead(ReservedConfigs),
}

/// The records, and what they say. Clauses see the records, and those for which memory was taken.
#[derive(Drop)]
pub(crate) struct Configs {
    alloc: Global,
    records: Vec<ConfigRecord>,
    state: ConfigState,
    twin: Twin,
}

impl Model for Configs {
    ghost use Rattle.std.specs.Prelude.{vec_capacity};
    ghost use Rattle.cw_topics.specs.Configs.{ConfigsState, IsConfigs, ready_in};

    ghost Value = { ConfigsState };

    ghost view = { λ c. record { records = c.records.items; ready = ready_in c.twin } };

    ghost invariant = { λ c. IsConfigs c.records.items (vec_capacity c.records) c.state c.twin };
}

impl Configs {
    /// With no record.
    pub(crate) fn new(alloc: Global) -> Configs
        ensures { result ≡ record { records = []; ready = [] } }
    {
        Configs {
            alloc,
            records: Vec::new(alloc),
            state: ConfigState::new(alloc),
            twin: unread(alloc),
        }
    }

    /// With the records that the config log is opened with, for which memory is taken.
    pub(crate) fn opened(alloc: Global, records: Vec<ConfigRecord>) -> Result<Configs, AllocError>
        requires { AreAccepted [] records.items }
        ensures { IfOk result (λ configs. configs ≡ record { records = records.items; ready = [] }) }
    {
        match read_on(ConfigState::new(alloc), 0, alloc, records.as_slice()) {
            Ok(state) => Ok(Configs {
                alloc,
                records,
                state,
                twin: unread(alloc),
            }),
            Err(_) => Err(AllocError),
        }
    }

    /// What the records say.
    pub(crate) fn state(&self) -> &ConfigState
        ensures { result.now ≡ self.now.records }
    {
        &self.state
    }

    /// The records, the oldest first.
    pub(crate) fn records(&self) -> &[ConfigRecord]
        ensures { result.now ≡ self.now.records }
    {
        self.records.as_slice()
    }

    /// Takes the memory of the next records. Without it nothing changes but what was ready before.
    pub(crate) fn ready(&mut self, frame: &[ConfigRecord]) -> Result<(), AllocError>
        ensures same { self.new.records ≡ self.old.records }
        ensures ready { OnOk result (self.new.ready ≡ frame.now) }
    {
        self.records.reserve(frame.len())?;
        let copies = copies_from(self.alloc, frame, 0)?;
        let twin = replace(&mut self.twin, unread(self.alloc));
        match reserved(twin, self.alloc, self.records.as_slice(), copies) {
            Ok(reserved) => {
                self.twin = Twin::Ahead(reserved);
                Ok(())
            }
            Err(twin) => {
                self.twin = twin;
                Err(AllocError)
            }
        }
    }

    /// Puts in the records for which memory was taken. It takes none.
    pub(crate) fn put(&mut self, frame: Vec<ConfigRecord>)
        requires some { 1 ≤ length frame.items }
        requires ready { self.old.ready ≡ frame.items }
        requires accepted { AreAccepted self.old.records frame.items }
        ensures { self.new ≡ record { records = self.old.records ++ frame.items; ready = [] } }
    {
        let read = self.records.len();
        match replace(&mut self.twin, unread(self.alloc)) {
            Twin::Ahead(reserved) => {
                let state = replace(&mut self.state, reserved.apply());
                self.twin = Twin::Behind { state, read };
                append_made(&mut self.records, frame);
            }
            Twin::Behind { .. } => unreachable!(),
        }
    }
}

// A state that has read nothing.
fn unread(alloc: Global) -> Twin
    ensures { result ≡ second.Behind [] 0 }
{
    Twin::Behind {
        state: ConfigState::new(alloc),
        read: 0,
    }
}

// It reads all records, and makes room for a frame behind them. Without memory it goes on without room.
fn reserved(
    twin: Twin,
    alloc: Global,
    records: &[ConfigRecord],
    frame: Vec<ConfigRecord>,
) -> Result<ReservedConfigs, Twin>
    requires { Reads records.now twin }
    ensures ok { IfOk result (λ reserved. reserved ≡ record { records = records.now; frame = frame.items }) }
    ensures err { IfErr result (λ left. ReadsAlone records.now left) }
{
    match read_all(twin, alloc, records) {
        Ok(state) => match state.reserve(frame) {
            Ok(reserved) => Ok(reserved),
            Err(state) => Err(Twin::Behind {
                state,
                read: records.len(),
            }),
        },
        Err(twin) => Err(twin),
    }
}

// It reads on to the end of the records.
fn read_all(twin: Twin, alloc: Global, records: &[ConfigRecord]) -> Result<ConfigState, Twin>
    requires { Reads records.now twin }
    ensures ok { IfOk result (λ state. state ≡ records.now) }
    ensures err { IfErr result (λ left. ReadsAlone records.now left) }
{
    match twin {
        Twin::Ahead(reserved) => Ok(reserved.give_up()),
        Twin::Behind { state, read } => read_on(state, read, alloc, records),
    }
}

// A state that has read so many of the records reads on.
fn read_on(
    state: ConfigState,
    read: usize,
    alloc: Global,
    records: &[ConfigRecord],
) -> Result<ConfigState, Twin>
    requires { IsBehind records.now state read }
    ensures ok { IfOk result (λ state. state ≡ records.now) }
    ensures err { IfErr result (λ left. ReadsAlone records.now left) }
{
    match copies_from(alloc, records, read as u64) {
        Ok(further) => match state.reserve(further) {
            Ok(reserved) => Ok(reserved.apply()),
            Err(state) => Err(Twin::Behind { state, read }),
        },
        Err(AllocError) => Err(Twin::Behind { state, read }),
    }
}

// Further items, for which there is room.
fn append_made(records: &mut Vec<ConfigRecord>, mut further: Vec<ConfigRecord>)
    requires { vec_len records.old + vec_len further ≤ vec_capacity records.old }
    ensures { records.new.items ≡ records.old.items ++ further.items }
{
    if records.append(&mut further).is_err() {
        unreachable!();
    }
}

/// A copy of the records from a place on.
pub fn copies_from(
    alloc: Global,
    records: &[ConfigRecord],
    from: u64,
) -> Result<Vec<ConfigRecord>, AllocError>
    ensures { IfOk result (λ copies. copies.items ≡ drop from records.now) }
{
    let mut copies = Vec::new(alloc);
    for at in from as usize..records.len() {
        copies.push(records[at].copy()?)?;
    }
    Ok(copies)
}
