//! What a compaction leaves of the offset log, as it is kept in memory.
ghost use Rattle.std.specs.Prelude.{◌≡◌};
ghost use Rattle.cw_compact.specs.Bodies.{bodies_in};

use crate::offset_log::OffsetLog;
use std::marker::Model;

/// What a compaction leaves of the offset log: what is then kept in memory, the bodies, and how many records there were
/// and are.
#[derive(Drop)]
pub struct LeftOffsetLog {
    pub(crate) log: OffsetLog,
    pub(crate) bodies: Vec<Vec<u8>>,
    pub(crate) before: u64,
    pub(crate) after: u64,
}

impl Model for LeftOffsetLog {
    ghost use Rattle.cw_compact.specs.Bodies.{bodies_in};
    ghost use Rattle.cw_topics.specs.Left.{LeftLog};

    ghost Value = { LeftLog };

    ghost view = { λ l. record {
      frames = l.log.frames;
      bodies = bodies_in l.bodies.items;
      before = l.before;
      after = l.after;
    } };
}

impl LeftOffsetLog {
    /// The bodies.
    pub fn bodies(&self) -> &Vec<Vec<u8>>
        ensures { bodies_in result.now.items ≡ self.now.bodies }
    {
        &self.bodies
    }

    /// How many records there were, and are.
    pub fn counts(&self) -> (u64, u64)
        ensures { result ≡ (self.now.before, self.now.after) }
    {
        (self.before, self.after)
    }

    /// What is kept of it in memory, on the side of this number.
    pub fn into_log(self, side: u64) -> OffsetLog
        ensures frames { result.frames ≡ self.frames }
        ensures side { result.side ≡ side }
    {
        self.log.on_side(side)
    }
}
