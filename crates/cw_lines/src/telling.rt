//! Writes the answers that a player holds.
ghost use Rattle.std.specs.Prelude.{◌≡◌, ◌≤◌, ℕ, List, [], IfErr, OnOk, OnErr};
ghost use Rattle.cw_types.specs.Faults.{Rose};
ghost use Rattle.cw_io.specs.Told.{with_back};
ghost use Rattle.cw_io.specs.Written.{IsWrittenInPart};
ghost use Rattle.cw_lines.specs.declared.end.DriveEnd.TheVariants.{WriteFault};
ghost use Rattle.cw_lines.specs.Drives.{after_tell};

use crate::end::DriveEnd;
use crate::player::LinePlayer;
use cw_io::{Sink, write_all};

/// Writes the answers, and forgets them.
pub(crate) fn tell<P: LinePlayer, O: Sink>(player: &mut P, output: &mut O) -> Result<(), DriveEnd>
    ensures written { OnOk result (O.held output.new ≡ with_back (P.playing player.old).text (O.held output.old)) }
    ensures silent { OnOk result (P.playing player.new ≡ record (P.playing player.old) { text = [] }) }
    ensures alive { OnOk result (P.alive player.old → P.alive player.new) }
    ensures kept { OnErr result (player.new ≡ player.old) }
    ensures idle { (P.playing player.old).text ≡ [] → player.new ≡ player.old }
    ensures faults { P.faults player.new ≡ P.faults player.old }
    ensures broken { OnOk result ((number : ℕ) (line : List ℕ) (state : P.State) (words : List ℕ) →
        P.broken player.old number line state words → P.broken player.new number line state words) }
    ensures in_part { OnErr result (IsWrittenInPart (P.playing player.old).text (O.held output.old)
        (O.held output.new)) }
    ensures fault { IfErr result (λ end. end ≡ WriteFault) }
    ensures later { O.faults output.old ≤ O.faults output.new }
    ensures rose { OnErr result (Rose (O.faults output.old) (O.faults output.new)) }
{
    if player.answers().is_empty() {
        return Ok(());
    }
    match write_all(output, player.answers()) {
        Ok(()) => {
            player.forget();
            Ok(())
        }
        Err(_) => Err(DriveEnd::WriteFault),
    }
}

/// How a step ended: as playing did where a disk failed, else as writing did where that failed.
pub(crate) fn first_of(
    played: Result<(), DriveEnd>,
    told: Result<(), DriveEnd>,
) -> Result<(), DriveEnd>
    ensures { result ≡ after_tell played told }
{
    match (played, told) {
        (Err(DriveEnd::StoreFault { disk, count }), _) => Err(DriveEnd::StoreFault { disk, count }),
        (_, Err(end)) => Err(end),
        (played, Ok(())) => played,
    }
}
