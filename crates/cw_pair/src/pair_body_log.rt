// A log on two disks, as a list of bodies.
use crate::PairLog;
use cw_disk::{Disk, Memory};
use cw_log::{AppendFault, BodyLog, ReadFault};

impl<D: Disk> BodyLog for PairLog<D> {
    ghost use Rattle.std.specs.Prelude.{ℕ, List, length};
    ghost use Rattle.cw_pair.specs.Pair.{PairStandsFor};
    ghost use Rattle.cw_pair.specs.State.{MayLeave, StandsSince, bodies_of, disks_of, faults_of};

    ghost bodies = { λ p. bodies_of D.Disk p };

    ghost size = { λ p. p.log.count };

    ghost bytes = { λ p. p.log.length };

    ghost limit = { λ p. p.log.limit };

    ghost kind = { λ p. p.log.kind };

    ghost number = { λ p. p.log.number };

    ghost ready = { λ p. p.log.ready };

    ghost is_shut = { λ p. p.log.shut };

    ghost last_failed = { λ p. p.failed };

    ghost faults = { λ p side. faults_of D.Disk (disks_of p) side };

    ghost moment = { λ p. length p.past };

    ghost stands_since = { λ p t list. StandsSince D.Disk p t list };

    ghost Image = { List ℕ × List ℕ };

    ghost may_leave = { λ p image. MayLeave D.may_leave (disks_of p) image.0 image.1 };

    ghost stands_for = { λ p list image. PairStandsFor p.log.kind list image.0 image.1 };

    fn reserve(&mut self, body: usize) -> Result<(), Memory> {
        self.past = self.past.and(&self.two);
        self.two.log.reserve(body)
    }

    fn append(&mut self, body: &[u8]) -> Result<u64, AppendFault> {
        let past = self.past.and(&self.two);
        self.two.log.rest();
        match self.two.log.append(body) {
            Ok(number) => {
                self.past = past;
                Ok(number)
            }
            Err(AppendFault::Memory) => {
                self.past = past;
                Err(AppendFault::Memory)
            }
            Err(AppendFault::Failed) => {
                self.past = past;
                self.failed = Some(self.two.log_faults());
                Err(AppendFault::Failed)
            }
            Err(AppendFault::Full { length, frame }) => Err(AppendFault::Full { length, frame }),
            Err(AppendFault::Shut) => Err(AppendFault::Shut),
        }
    }

    fn count(&self) -> u64 {
        self.two.log.count()
    }

    fn length(&self) -> u64 {
        self.two.log.length()
    }

    fn read_body(&mut self, index: u64) -> Result<Vec<u8>, ReadFault> {
        self.past = self.past.and(&self.two);
        match self.two.log.read_body(index) {
            Ok(body) => Ok(body),
            Err(ReadFault::Memory) => Err(ReadFault::Memory),
            Err(ReadFault::Failed) => {
                self.failed = Some(self.two.log_faults());
                Err(ReadFault::Failed)
            }
        }
    }

    fn rest(&self) {
        self.two.log.rest()
    }

    fn failed(&self) -> Option<(u8, u64)> {
        self.failed
    }
}
