// A log on one disk, as a list of bodies.
use crate::{AppendFault, BodyLog, ReadFault, TopicLog};
use cw_disk::{Disk, Memory};

impl<D: Disk> BodyLog for TopicLog<D> {
    ghost use Rattle.std.specs.Prelude.{List, ℕ};
    ghost use Rattle.cw_log.specs.Log.{StandsFor};
    ghost use Rattle.cw_log.specs.State.{StandsSince};

    ghost bodies = { λ l. l.bodies };

    ghost size = { λ l. l.count };

    ghost bytes = { λ l. l.length };

    ghost limit = { λ l. l.limit };

    ghost kind = { λ l. l.kind };

    ghost number = { λ l. l.number };

    ghost ready = { λ l. l.ready };

    ghost is_shut = { λ l. l.shut };

    ghost last_failed = { λ l. l.failed };

    ghost faults = { λ l _. D.count l.disk };

    ghost moment = { λ l. D.moment l.disk };

    ghost stands_since = { λ l t list. StandsSince l.kind (D.left_since l.disk t) list };

    ghost Image = { List ℕ };

    ghost may_leave = { λ l image. D.may_leave l.disk image };

    ghost stands_for = { λ l list image. StandsFor l.kind list image };

    fn reserve(&mut self, body: usize) -> Result<(), Memory> {
        TopicLog::reserve(self, body)
    }

    fn append(&mut self, body: &[u8]) -> Result<u64, AppendFault> {
        TopicLog::append(self, body)
    }

    fn count(&self) -> u64 {
        TopicLog::count(self)
    }

    fn length(&self) -> u64 {
        TopicLog::length(self)
    }

    fn read_body(&mut self, index: u64) -> Result<Vec<u8>, ReadFault> {
        TopicLog::read_body(self, index)
    }

    fn rest(&self) {
        TopicLog::rest(self)
    }

    fn failed(&self) -> Option<(u8, u64)> {
        TopicLog::failed(self)
    }
}
