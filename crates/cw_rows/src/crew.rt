//! The workers, and what they run.
ghost use Rattle.std.specs.Prelude.{◌≡◌, ◌==◌, ◌&&◌, ◌≤◌, ◌↔◌, IsTrue, if◌then◌else◌, not, ◌<◌, ◌++◌, ◌∷◌, [], ℕ};
ghost use Rattle.std.specs.Prelude.{length, drop, map, false, true, IfOk, OnOk, OnErr, slice_index_or, slice_set, Some};
ghost use Rattle.std.specs.Prelude.{vec_len, vec_capacity};
ghost use Rattle.std.specs.List.{filter, fold, AllByRecursion, IsDistinct};
ghost use Rattle.cw_assign.specs.Items.{same_item, in_order};
ghost use Rattle.cw_config.specs.Compaction.{AreAccepted};
ghost use Rattle.cw_model.specs.declared.instance.InstancePhase.TheVariants as phase;
ghost use Rattle.cw_model.specs.Lookups.{no_row, no_instance, new_row, is_at};
ghost use Rattle.cw_model.specs.EventsLeading.{leading, without_fencing};
ghost use Rattle.cw_model.specs.EventsSources.{at_positions, with_epoch, committed_to};
ghost use Rattle.cw_model.specs.Tasks.{taking, polling_from, cut_of};
ghost use Rattle.cw_model.specs.EventsGroups.{joining, stable_with};
ghost use Rattle.cw_model.specs.EventsWorkers.{killed, most_workers};
ghost use Rattle.cw_model.specs.Phases.{is_ended};
ghost use Rattle.cw_model.specs.Updates.{in_phase, without_lead};
ghost use Rattle.cw_rows.specs.Crew.{change_at};
ghost use Rattle.cw_model.specs.EventsReports.{is_item_at};

use crate::numbers::Numbers;
use cw_assign::ItemSet;
use cw_config::{ConfigRecord, ConfigState};
use cw_group::Synced;
use cw_model::{Cut, Fencing, Instance, InstancePhase, Row, RowPhase, Trace};
use cw_topics::copies_from;
use cw_types::{Epoch, Item, Listed};
use std::alloc::{AllocError, Global};
use std::marker::Model;
use std::mem::replace;

/// The workers, what each has read of the config log, and what they run or ran.
#[derive(Drop)]
pub struct Crew {
    alloc: Global,
    rows: Vec<Row>,
    pub(crate) instances: Vec<Instance>,
    reads: Vec<ConfigState>,
    pub(crate) runs: Vec<Numbers>,
}

impl Model for Crew {
    ghost use Rattle.cw_rows.specs.Crew.{CrewState, IsCrew};

    ghost Value = { CrewState };

    ghost view = { λ c. record { rows = c.rows.items; instances = c.instances.items; reads = c.reads.items } };

    ghost invariant = { λ c. IsCrew c.rows.items c.instances.items c.reads.items c.runs.items };
}

impl Crew {
    ghost use Rattle.cw_rows.specs.Crew.{CrewState, with_row, with_instance, with_ends, with_read, ends_below};
    ghost use Rattle.cw_rows.specs.Crew.{takes_part};
    ghost use Rattle.cw_model.specs.EventsItems.{runs};

    /// With no worker.
    pub fn new(alloc: Global) -> Crew
        ensures { result ≡ record { rows = []; instances = []; reads = [] } }
    {
        Crew {
            alloc,
            rows: Vec::new(alloc),
            instances: Vec::new(alloc),
            reads: Vec::new(alloc),
            runs: Vec::new(alloc),
        }
    }

    /// A worker's row.
    pub fn row(&self, w: u32) -> &Row
        requires { w < length self.now.rows }
        ensures { result.now ≡ slice_index_or self.now.rows w no_row }
    {
        &self.rows[w as usize]
    }

    /// How many workers there are.
    pub fn workers(&self) -> u32
        ensures { result ≡ length self.now.rows }
    {
        self.rows.len() as u32
    }

    /// An instance.
    pub fn instance(&self, i: u64) -> &Instance
        requires { i < length self.now.instances }
        ensures { result.now ≡ slice_index_or self.now.instances i no_instance }
    {
        &self.instances[i as usize]
    }

    /// How many instances there are.
    pub fn instances(&self) -> u64
        ensures { result ≡ length self.now.instances }
    {
        self.instances.len() as u64
    }

    /// What a worker has read of the config log.
    pub fn read_by(&self, w: u32) -> &ConfigState
        requires { w < length self.now.rows }
        ensures { result.now ≡ slice_index_or self.now.reads w [] }
    {
        &self.reads[w as usize]
    }

    /// One worker more, of at most so many.
    pub fn spawn(&mut self) -> Result<(), AllocError>
        requires { length self.old.rows < most_workers }
        ensures ok { OnOk result (self.new ≡ record {
          rows = self.old.rows ++ new_row ∷ [];
          instances = self.old.instances;
          reads = self.old.reads ++ [] ∷ [];
        }) }
        ensures err { OnErr result (self.new ≡ self.old) }
    {
        make_room(&mut self.rows)?;
        make_room(&mut self.reads)?;
        make_room(&mut self.runs)?;
        push_made(&mut self.rows, new_row(self.alloc));
        push_made(&mut self.reads, ConfigState::new(self.alloc));
        push_made(&mut self.runs, Numbers::new(self.alloc));
        Ok(())
    }

    /// A worker hears the group or doesn't.
    pub fn set_hearing(&mut self, w: u32, hearing: bool)
        requires { w < length self.old.rows }
        ensures { self.new ≡ with_row w (λ row. record row { hearing = hearing }) self.old }
    {
        self.rows[w as usize].hearing = hearing;
    }

    /// A worker leads under an epoch, and has fenced nobody yet.
    pub fn lead(&mut self, w: u32, epoch: Epoch)
        requires { w < length self.old.rows }
        ensures { self.new ≡ with_row w (leading epoch) self.old }
    {
        let row = &mut self.rows[w as usize];
        row.lead = Some(epoch);
        row.fencing = None;
    }

    /// A worker gives up its lead epoch.
    pub fn lose_lead(&mut self, w: u32)
        requires { w < length self.old.rows }
        ensures { self.new ≡ with_row w without_lead self.old }
    {
        self.rows[w as usize].lead = None;
    }

    /// A worker has fenced so far.
    pub fn set_fencing(&mut self, w: u32, fencing: Fencing)
        requires { w < length self.old.rows }
        ensures { self.new ≡ with_row w (λ row. record row { fencing = Some fencing }) self.old }
    {
        self.rows[w as usize].fencing = Some(fencing);
    }

    /// A worker fences nobody any more.
    pub fn end_fencing(&mut self, w: u32)
        requires { w < length self.old.rows }
        ensures { self.new ≡ with_row w without_fencing self.old }
    {
        self.rows[w as usize].fencing = None;
    }

    /// An instance that hasn't ended goes on to a phase.
    pub fn set_phase(&mut self, i: u64, phase: InstancePhase)
        requires there { i < length self.old.instances }
        requires runs { is_ended (slice_index_or self.old.instances i no_instance).phase ≡ false }
        requires on { is_ended phase ≡ false }
        ensures { self.new ≡ with_instance i (in_phase phase) self.old }
    {
        self.instances[i as usize].phase = phase;
    }

    /// An instance that hasn't ended fails, and keeps why.
    pub fn fail(&mut self, i: u64, trace: Trace)
        requires there { i < length self.old.instances }
        requires runs { is_ended (slice_index_or self.old.instances i no_instance).phase ≡ false }
        ensures { self.new ≡ with_instance i
            (λ instance. record instance { phase = phase.Failed; trace = Some trace }) self.old }
    {
        let instance = &mut self.instances[i as usize];
        instance.phase = InstancePhase::Failed;
        instance.trace = Some(trace);
    }

    /// An instance that hasn't ended polls from these positions on.
    pub fn poll(&mut self, i: u64, positions: Vec<u64>)
        requires there { i < length self.old.instances }
        requires runs { is_ended (slice_index_or self.old.instances i no_instance).phase ≡ false }
        ensures { self.new ≡ with_instance i (at_positions positions.items) self.old }
    {
        let instance = &mut self.instances[i as usize];
        instance.phase = InstancePhase::Polling;
        instance.number = 0;
        instance.positions = Listed::new(positions);
    }

    /// An instance that hasn't ended has taken a cut, and goes on to a phase.
    pub fn take(&mut self, i: u64, phase: InstancePhase, cut: Cut)
        requires there { i < length self.old.instances }
        requires runs { is_ended (slice_index_or self.old.instances i no_instance).phase ≡ false }
        requires on { is_ended phase ≡ false }
        ensures { self.new ≡ with_instance i (taking phase cut) self.old }
    {
        let instance = &mut self.instances[i as usize];
        instance.phase = phase;
        instance.last = Some(cut.turn);
        instance.cut = Some(cut);
    }

    /// A new task gets the epoch of its producer.
    pub fn init(&mut self, i: u64, epoch: Epoch)
        requires there { i < length self.old.instances }
        requires runs { is_ended (slice_index_or self.old.instances i no_instance).phase ≡ false }
        ensures { self.new ≡ with_instance i (with_epoch epoch) self.old }
    {
        let instance = &mut self.instances[i as usize];
        instance.phase = InstancePhase::Inited;
        instance.epoch = Some(epoch);
    }

    /// A sink's task polls on from a position in the topic that it took last.
    pub fn poll_on(&mut self, i: u64, position: u64)
        requires there { i < length self.old.instances }
        requires runs { is_ended (slice_index_or self.old.instances i no_instance).phase ≡ false }
        ensures { self.new ≡ with_instance i (polling_from phase.Polling position) self.old }
    {
        let instance = &mut self.instances[i as usize];
        let turn = cut_of(instance).turn;
        instance.phase = InstancePhase::Polling;
        set_position(&mut instance.positions, self.alloc, turn, position);
    }

    /// A source's task, whose transaction is committed, polls on behind it, with the next one.
    pub fn commit(&mut self, i: u64)
        requires there { i < length self.old.instances }
        requires runs { is_ended (slice_index_or self.old.instances i no_instance).phase ≡ false }
        ensures { self.new ≡ with_instance i (λ instance. committed_to (cut_of instance).to instance) self.old }
    {
        let instance = &mut self.instances[i as usize];
        let cut = cut_of(instance);
        instance.phase = InstancePhase::Polling;
        instance.number = instance.number.saturating_add(1);
        set_position(&mut instance.positions, self.alloc, cut.turn, cut.to);
    }

    /// An instance ends.
    pub fn stop(&mut self, i: u64)
        requires { i < length self.old.instances }
        ensures { self.new ≡ with_instance i (in_phase phase.Ended) self.old }
    {
        let worker = self.instances[i as usize].worker;
        self.instances[i as usize].phase = InstancePhase::Ended;
        remove_number(&mut self.runs, worker as usize, i);
    }

    /// An instance more, which hasn't ended.
    pub fn start(&mut self, instance: Instance) -> Result<(), AllocError>
        requires worker { instance.worker < length self.old.rows }
        requires on { is_ended instance.phase ≡ false }
        ensures ok { OnOk result (self.new ≡ record {
          rows = self.old.rows;
          instances = self.old.instances ++ instance ∷ [];
          reads = self.old.reads;
        }) }
        ensures err { OnErr result (self.new ≡ self.old) }
    {
        make_room(&mut self.instances)?;
        let number = self.instances.len() as u64;
        add_number(&mut self.runs, instance.worker as usize, number)?;
        push_made(&mut self.instances, instance);
        Ok(())
    }

    /// A worker is killed, and what it runs ends.
    pub fn kill(&mut self, w: u32)
        requires { w < length self.old.rows }
        ensures { self.new ≡ with_ends (is_at w) (with_row w killed self.old) }
    {
        self.rows[w as usize].live = false;
        end_each(&mut self.instances, self.runs[w as usize].as_slice());
        self.runs[w as usize].clear();
    }

    /// What runs of an item at workers that take part ends.
    pub fn end_item(&mut self, item: &Item)
        ensures { self.new ≡
            with_ends (λ i. runs item.now i && takes_part self.old.rows i.worker) self.old }
    {
        self.end_item_below(self.workers(), item);
    }

    // The same of the workers below a number.
    fn end_item_below(&mut self, end: u32, item: &Item)
        requires { end ≤ length self.old.rows }
        ensures { self.new ≡ with_ends (ends_below self.old.rows item.now end) self.old }
    {
        for w in 0..end {
            self.end_item_if(w, item);
        }
    }

    // What a worker runs of an item ends where the worker takes part.
    fn end_item_if(&mut self, w: u32, item: &Item)
        requires { w < length self.old.rows }
        ensures { self.new ≡
            (if takes_part self.old.rows w then with_ends (is_item_at w item.now) self.old else self.old) }
    {
        if self.takes_part(w) {
            self.end_item_at(w, item);
        }
    }

    // Whether a worker takes part: it wasn't killed and isn't deaf.
    fn takes_part(&self, w: u32) -> bool
        requires { w < length self.now.rows }
        ensures { result ≡ takes_part self.now.rows w }
    {
        self.rows[w as usize].live && self.rows[w as usize].hearing
    }

    // What a worker runs of an item ends.
    fn end_item_at(&mut self, w: u32, item: &Item)
        requires { w < length self.old.rows }
        ensures { self.new ≡ with_ends (is_item_at w item.now) self.old }
    {
        end_among(&mut self.instances, self.runs[w as usize].as_slice(), item);
        keep_running(&mut self.runs, w as usize, self.instances.as_slice());
    }

    /// What a worker holds: the items of its instances that haven't ended, in item order.
    pub fn held(&self, w: u32) -> Result<Vec<Item>, AllocError>
        requires { w < length self.now.rows }
        ensures items { IfOk result (λ items. items.items ≡
            in_order (map (λ i. i.item) (filter (is_at w) self.now.instances))) }
        ensures once { IfOk result (λ items. IsDistinct same_item items.items) }
    {
        let items = items_of(
            self.alloc,
            &self.instances,
            self.runs[w as usize].as_slice(),
        )?;
        let set = ItemSet::of(self.alloc, items.as_slice())?;
        set.into_items(self.alloc)
    }

    /// A worker has joined with what it holds.
    pub fn join(&mut self, w: u32, incarnation: u64, held: Vec<Item>)
        requires { w < length self.old.rows }
        ensures { self.new ≡ with_row w (joining incarnation held.items) self.old }
    {
        let row = &mut self.rows[w as usize];
        row.incarnation = Some(incarnation);
        row.phase = RowPhase::Joining;
        row.assigned = Listed::new(held);
        row.revoked = Listed::new(Vec::new(self.alloc));
    }

    /// A worker was told its share; it leads on only where it is the leader.
    pub fn sync(&mut self, w: u32, told: Synced)
        requires { w < length self.old.rows }
        ensures { self.new ≡ with_row w (stable_with w told) self.old }
    {
        let row = &mut self.rows[w as usize];
        row.phase = RowPhase::Stable {
            round: told.round,
            leader: told.leader,
        };
        row.round = told.round;
        row.assigned = told.assigned;
        row.revoked = told.revoked;
        if told.leader != w {
            row.lead = None;
        }
    }

    /// A worker reads the config log to its end; these are its records.
    pub fn read(&mut self, w: u32, records: &[ConfigRecord]) -> Result<(), AllocError>
        requires there { w < length self.old.rows }
        requires accepted { AreAccepted (slice_index_or self.old.reads w [])
            (drop (slice_index_or self.old.rows w no_row).prefix records.now) }
        ensures ok { OnOk result (self.new ≡ with_read w records.now self.old) }
        ensures err { OnErr result (self.new ≡ self.old) }
    {
        let further = copies_from(self.alloc, records, self.rows[w as usize].prefix)?;
        read_on(&mut self.reads[w as usize], self.alloc, further)?;
        self.rows[w as usize].prefix = records.len() as u64;
        Ok(())
    }
}

// Applies further records. Without memory nothing changes.
fn read_on(
    state: &mut ConfigState,
    alloc: Global,
    further: Vec<ConfigRecord>,
) -> Result<(), AllocError>
    requires { AreAccepted state.old further.items }
    ensures ok { OnOk result (state.new ≡ state.old ++ further.items) }
    ensures err { OnErr result (state.new ≡ state.old) }
{
    let before = replace(state, ConfigState::new(alloc));
    match before.reserve(further) {
        Ok(reserved) => {
            *state = reserved.apply();
            Ok(())
        }
        Err(before) => {
            *state = before;
            Err(AllocError)
        }
    }
}

// A worker's numbers, but for one that has ended.
fn remove_number(runs: &mut Vec<Numbers>, worker: usize, number: u64)
    requires { worker < length runs.old.items }
    ensures { runs.new.items ≡ slice_set runs.old.items worker
        (filter (λ n. not (n == number)) (slice_index_or runs.old.items worker [])) }
{
    runs[worker].remove(number);
}

// A worker's numbers, and one more.
fn add_number(runs: &mut Vec<Numbers>, worker: usize, number: u64) -> Result<(), AllocError>
    requires { worker < length runs.old.items }
    ensures ok { OnOk result (runs.new.items ≡ slice_set runs.old.items worker
        (slice_index_or runs.old.items worker [] ++ number ∷ [])) }
    ensures err { OnErr result (runs.new.items ≡ runs.old.items) }
{
    runs[worker].push(number)
}

// The instances of these numbers end.
fn end_each(instances: &mut Vec<Instance>, numbers: &[u64])
    requires { AllByRecursion (λ n. n < length instances.old.items) numbers.now }
    ensures { instances.new.items ≡
        fold (change_at (λ i. true) (in_phase phase.Ended) no_instance) instances.old.items numbers.now }
{
    for number in numbers {
        instances[*number as usize].phase = InstancePhase::Ended;
    }
}

// The instances of these numbers that are of an item end.
fn end_among(instances: &mut Vec<Instance>, numbers: &[u64], item: &Item)
    requires { AllByRecursion (λ n. n < length instances.old.items) numbers.now }
    ensures { instances.new.items ≡ fold (change_at (λ i. same_item i.item item.now) (in_phase phase.Ended) no_instance)
        instances.old.items numbers.now }
{
    for number in numbers {
        end_if(instances, *number as usize, item);
    }
}

// The instance at a place ends where it is of an item.
fn end_if(instances: &mut Vec<Instance>, at: usize, item: &Item)
    requires { at < length instances.old.items }
    ensures { instances.new.items ≡
        change_at (λ i. same_item i.item item.now) (in_phase phase.Ended) no_instance instances.old.items at }
{
    if is_of(&instances[at], item) {
        instances[at].phase = InstancePhase::Ended;
    }
}

/// What an instance took last.
pub(crate) fn cut_of(instance: &Instance) -> Cut
    ensures { result ≡ cut_of instance.now }
{
    match instance.cut {
        Some(cut) => cut,
        None => Cut {
            turn: 0,
            from: 0,
            to: 0,
        },
    }
}

// The position in the part of a turn is set, where there is one.
fn set_position(positions: &mut Listed<u64>, alloc: Global, turn: u32, position: u64)
    ensures { positions.new ≡ slice_set positions.old turn position }
{
    let mut items = replace(positions, Listed::new(Vec::new(alloc))).into_vec();
    set_at(&mut items, turn as usize, position);
    *positions = Listed::new(items);
}

// The number at a place is set, where there is one.
fn set_at(items: &mut Vec<u64>, at: usize, number: u64)
    ensures { items.new.items ≡ slice_set items.old.items at number }
{
    if at < items.len() {
        items[at] = number;
    }
}

/// Whether an instance is of an item.
pub(crate) fn is_of(instance: &Instance, item: &Item) -> bool
    ensures { IsTrue result ↔ (instance.now.item ≡ item.now) }
{
    instance.item == *item
}

// Of a worker's numbers those of instances that haven't ended.
fn keep_running(runs: &mut Vec<Numbers>, worker: usize, instances: &[Instance])
    requires { worker < length runs.old.items }
    ensures { runs.new.items ≡ slice_set runs.old.items worker
        (filter (λ n. not (is_ended (slice_index_or instances.now n no_instance).phase))
        (slice_index_or runs.old.items worker [])) }
{
    runs[worker].keep_running(instances);
}

// The items of the instances of these numbers.
fn items_of(alloc: Global, instances: &[Instance], numbers: &[u64]) -> Result<Vec<Item>, AllocError>
    requires { AllByRecursion (λ n. n < length instances.now) numbers.now }
    ensures { IfOk result (λ items. items.items ≡
        map (λ n. (slice_index_or instances.now n no_instance).item) numbers.now) }
{
    let mut items = Vec::new(alloc);
    for number in numbers {
        items.push(instances[*number as usize].item.copy()?)?;
    }
    Ok(items)
}

/// A worker as it is made.
fn new_row(alloc: Global) -> Row
    ensures { result ≡ new_row }
{
    Row {
        live: true,
        hearing: true,
        incarnation: None,
        phase: RowPhase::Out,
        round: 0,
        assigned: Listed::new(Vec::new(alloc)),
        revoked: Listed::new(Vec::new(alloc)),
        prefix: 0,
        lead: None,
        fencing: None,
    }
}

/// One place more, which changes no item.
pub(crate) fn make_room<T>(items: &mut Vec<T>) -> Result<(), AllocError>
    ensures same { items.new.items ≡ items.old.items }
    ensures room { OnOk result (vec_len items.new < vec_capacity items.new) }
{
    items.reserve(1)
}

/// One item more, for which there is room.
pub(crate) fn push_made<T: Drop>(items: &mut Vec<T>, item: T)
    requires { vec_len items.old < vec_capacity items.old }
    ensures { items.new.items ≡ items.old.items ++ item ∷ [] }
{
    if items.push(item).is_err() {
        unreachable!();
    }
}
