//! Listeners: where links come from.

use cw_io::{Failed, Link};

/// Where the links of a server come from, as a TCP port.
pub trait Listener {
    ghost use Rattle.std.specs.Prelude.{◌≡◌, ◌++◌, ◌≤◌, ◌||◌, ℕ, Bool, List, OnErr};
    ghost use Rattle.cw_types.specs.Faults.{Rose};
    ghost use Rattle.cw_net.specs.Accepting.{links_in, is_end};

    /// A link that it gives.
    type Link: Link + Send + Drop;

    /// The links that it gave, in order, each as it was then.
    ghost given: { Self → List Self.Link };

    /// Whether it has said that there are no more.
    ghost ended: { Self → Bool };

    /// How many of its calls failed. A count at the type's end stays there.
    ghost faults: { Self → ℕ };

    /// The next link, or None at the end of the connections.
    fn accept(&mut self) -> Result<Option<Self::Link>, Failed>
        ensures given { given self.new ≡ given self.old ++ links_in result }
        ensures ended { ended self.new ≡ ended self.old || is_end result }
        ensures later { faults self.old ≤ faults self.new }
        ensures rose { OnErr result (Rose (faults self.old) (faults self.new)) };
}
