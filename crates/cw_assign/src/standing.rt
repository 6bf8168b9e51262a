//! Where a member stands among the others, and how much it may keep.
ghost use Rattle.std.specs.Prelude.{◌≡◌, ◌<◌, ◌≤◌, ◌^◌, length};
ghost use Rattle.cw_assign.specs.Quota.{stands_before, rank, quota};

/// A member's number and its load: how many configured items of a class it holds.
#[derive(Clone, Copy, Debug, PartialEq, Eq, Drop)]
pub struct Standing {
    /// The member's worker.
    pub worker: u32,
    /// How many configured items of the class it holds.
    pub load: usize,
}

impl Standing {
    // Whether it stands before another: the greater load first, then the lower number.
    fn stands_before(&self, other: &Standing) -> bool
        ensures { result ≡ stands_before self.now other.now }
    {
        if self.load > other.load {
            return true;
        }
        self.load == other.load && self.worker < other.worker
    }

    // How many stand before it.
    fn rank(&self, standings: &[Standing]) -> usize
        ensures { result ≡ rank standings.now self.now }
    {
        standings
            .iter()
            .filter(|other| other.stands_before(self))
            .count()
    }

    /// How many of so many items it may keep.
    pub(crate) fn quota(&self, total: usize, standings: &[Standing]) -> usize
        requires { 0 < length standings.now }
        ensures { result ≡ quota total standings.now self.now }
    {
        let even = total / standings.len();
        if self.rank(standings) < total % standings.len() {
            even + 1
        } else {
            even
        }
    }
}
