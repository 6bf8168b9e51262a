//! The command `gen`: a script is made from a number and played, and what it comes to is written.
ghost use Rattle.std.specs.Prelude.{◌≡◌, ◌≤◌, ◌⊎◌};
ghost use Rattle.cw_types.specs.Faults.{Rose};
ghost use Rattle.cw_connect.specs.declared.status.Status.TheVariants.{WriteFault, Memory};
ghost use Rattle.cw_connect.specs.Generated.{IsGenerated, run_asked};
ghost use Rattle.cw_connect.specs.Statuses.{status_of_stop};

use crate::status::Status;
use cw_gen::generate;
use cw_io::Sink;
use cw_words::{GenOptions, Options};
use std::alloc::Global;

/// Makes the script that the words ask for, plays it over disks of its own, and writes what it comes to.
pub(crate) fn make_and_play<O: Sink>(alloc: Global, options: GenOptions, output: &mut O) -> Status
    requires few { options.count ≤ 1000000 }
    ensures due { IsGenerated O.Sink options result output.old output.new }
    ensures write_fault { result ≡ WriteFault → Rose (O.faults output.old) (O.faults output.new) }
    ensures later_out { O.faults output.old ≤ O.faults output.new }
    ensures complete { ¬ Rose (O.faults output.old) (O.faults output.new) →
        (result ≡ status_of_stop (run_asked options).stop) ⊎ (result ≡ Memory) }
{
    let GenOptions {
        start,
        count,
        shared: Options { group, delay },
    } = options;
    Status::of_gen(generate(alloc, start, count, group, delay, output))
}
