//! Gates: where a server's threads pass.

/// A point that a thread passes.
#[derive(Clone, Copy, Debug, PartialEq, Eq, Drop)]
pub enum Point {
    /// A task runner is about to scan its instances.
    BeforeScan,
    /// A task runner made a step.
    AfterStep,
    /// A herder made a tick that wasn't idle.
    AfterTick,
    /// The cleaner compacted a log.
    AfterClean,
}

/// What each thread calls at its points, holding no lock. A gate may keep it there for a while, so that a test sees
/// threads work beside each other. `who` is the runner's or the worker's number, and 0 for the cleaner.
pub trait Gate {
    /// A thread passes.
    fn pass(&self, point: Point, who: u32);
}

/// The gate that keeps nobody.
#[derive(Clone, Copy, Debug, Drop)]
pub struct OpenGate;

impl Gate for OpenGate {
    fn pass(&self, _: Point, _: u32) {}
}
