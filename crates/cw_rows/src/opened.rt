//! A cluster as it is opened: what follows from the logs, no worker, and an empty group.
ghost use Rattle.std.specs.Prelude.{◌≡◌};
ghost use Rattle.cw_rows.specs.Opened.{opened_of};

use crate::cluster::Cluster;
use crate::crew::Crew;
use cw_feed::Feeds;
use cw_group::Circle;
use cw_topics::Topics;
use cw_types::Name;
use std::alloc::Global;

impl Cluster {
    /// A cluster without workers over what the logs hold, at the moment 0. The feeds agree with what was committed, or
    /// they don't.
    pub fn opened(
        alloc: Global,
        topics: Topics,
        group: Name,
        delay: u64,
        feeds: Feeds,
        agreed: bool,
    ) -> Cluster
        ensures state { result.state ≡ opened_of topics }
        ensures setting { result.setting ≡ record { group = group; delay = delay; feeds = feeds; agreed = agreed } }
    {
        Cluster {
            alloc,
            name: group,
            scheduled: delay,
            feeds,
            agreed,
            topics,
            crew: Crew::new(alloc),
            circle: Circle::new(alloc),
            journal: Vec::new(alloc),
            closed: None,
        }
    }
}
