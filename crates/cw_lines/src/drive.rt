//! Reads a script to its end, and writes the answers to its lines before it reads on.
ghost use Rattle.std.specs.Prelude.{◌≡◌, ◌≤◌, ◌<◌, ◌+◌, [], Some, IfErr, OnOk, length};
ghost use Rattle.cw_types.specs.Faults.{Rose};
ghost use Rattle.cw_lines.specs.Drives.{session_of, stands, room, PlaysPiece, EndsInPiece, EndsAtEnd};
ghost use Rattle.cw_lines.specs.Due.{DrivesOver, most_piece};
ghost use Rattle.cw_lines.specs.Players.{NoneFell, Caused, player_of};

use crate::end::DriveEnd;
use crate::player::LinePlayer;
use crate::reading::Reading;
use crate::telling::{first_of, tell};
use cw_io::{Sink, Source};
use std::alloc::Global;

// How many bytes are read at once.
const PIECE: usize = 65_536;

/// Has the player play the script that the input holds. The answers to all lines that were read are written before more
/// is read. A disk's failure comes before a failed write, and this before what else ended the script.
pub fn drive_lines<P: LinePlayer, I: Source, O: Sink>(
    alloc: Global,
    player: &mut P,
    input: &mut I,
    output: &mut O,
) -> DriveEnd
    requires alive { P.alive player.old }
    requires silent { (P.playing player.old).text ≡ [] }
    ensures drives { DrivesOver I.Source O.Sink (player_of P.rules (P.playing player.old).setting)
        (P.rules.amid (P.playing player.old).setting) result (P.playing player.old).state
        input.old input.new output.old output.new (stands P.LinePlayer player.new) (P.broken player.new) }

    // A script without a byte changes nothing.
    ensures idle { I.left input.old ≡ Some [] → player.new ≡ player.old }
    ensures caused { Caused (Rose (I.faults input.old) (I.faults input.new))
        (Rose (O.faults output.old) (O.faults output.new)) (P.faults player.old) (P.faults player.new) result }
    ensures later { NoneFell (P.faults player.old) (P.faults player.new) }
    ensures later_in { I.faults input.old ≤ I.faults input.new }
    ensures later_out { O.faults output.old ≤ O.faults output.new }
{
    let Ok(mut piece) = vec![in alloc; 0u8; PIECE] else {
        return DriveEnd::Memory;
    };
    let mut reading = Reading::new(alloc);
    drive_by(&mut reading, player, input, output, piece.as_mut_slice())
}

// The same, by pieces of at most that length.
fn drive_by<P: LinePlayer, I: Source, O: Sink>(
    reading: &mut Reading,
    player: &mut P,
    input: &mut I,
    output: &mut O,
    piece: &mut [u8],
) -> DriveEnd
    requires some { 0 < length piece.old }
    requires short { length piece.old ≤ most_piece }
    requires alive { P.alive player.old }
    requires silent { (P.playing player.old).text ≡ [] }
    requires none { reading.old.count ≡ 0 }
    requires empty { reading.old.pending.items ≡ [] }
    ensures drives { DrivesOver I.Source O.Sink (player_of P.rules (P.playing player.old).setting)
        (P.rules.amid (P.playing player.old).setting) result (P.playing player.old).state
        input.old input.new output.old output.new (stands P.LinePlayer player.new) (P.broken player.new) }
    ensures idle { I.left input.old ≡ Some [] → player.new ≡ player.old }
    ensures caused { Caused (Rose (I.faults input.old) (I.faults input.new))
        (Rose (O.faults output.old) (O.faults output.new)) (P.faults player.old) (P.faults player.new) result }
    ensures later { NoneFell (P.faults player.old) (P.faults player.new) }
    ensures later_in { I.faults input.old ≤ I.faults input.new }
    ensures later_out { O.faults output.old ≤ O.faults output.new }
{
    'pieces: loop {
        match input.read(piece) {
            Ok(0) => return last(reading, player, output),
            Ok(count) => {
                if let Err(end) = turn(reading, player, output, &piece[..count]) {
                    return end;
                }
            }
            Err(_) => return DriveEnd::ReadFault,
        }
    }
}

// Plays a piece of the script, and writes the answers.
fn turn<P: LinePlayer, O: Sink>(
    reading: &mut Reading,
    player: &mut P,
    output: &mut O,
    piece: &[u8],
) -> Result<(), DriveEnd>
    requires alive { P.alive player.old }
    ensures go { OnOk result (PlaysPiece P.rules piece.now (session_of P.LinePlayer player.old reading.old)
        (session_of P.LinePlayer player.new reading.new) (O.held output.old) (O.held output.new)) }
    ensures alive { OnOk result (P.alive player.new) }
    ensures stop { IfErr result (λ end. EndsInPiece P.rules (stands P.LinePlayer player.new) (P.broken player.new)
        (Rose (O.faults output.old) (O.faults output.new)) end piece.now
        (session_of P.LinePlayer player.old reading.old) (O.held output.old) (O.held output.new)) }
    ensures caused { IfErr result (Caused ⊥ (Rose (O.faults output.old) (O.faults output.new))
        (P.faults player.old) (P.faults player.new)) }
    ensures later { NoneFell (P.faults player.old) (P.faults player.new) }
    ensures later_out { O.faults output.old ≤ O.faults output.new }
    ensures less { OnOk result (room reading.new + length piece.now ≤ room reading.old) }
{
    let fed = reading.feed(player, piece);
    let told = tell(player, output);
    first_of(fed, told)
}

// Plays the end of the script, and writes the answers.
fn last<P: LinePlayer, O: Sink>(reading: &mut Reading, player: &mut P, output: &mut O) -> DriveEnd
    requires alive { P.alive player.old }
    requires silent { (P.playing player.old).text ≡ [] }
    ensures ends { EndsAtEnd P.rules (stands P.LinePlayer player.new) (P.broken player.new)
        (Rose (O.faults output.old) (O.faults output.new)) result (session_of P.LinePlayer player.old reading.old)
        (O.held output.old) (O.held output.new) }
    ensures idle { reading.old.pending.items ≡ [] → player.new ≡ player.old }
    ensures caused { Caused ⊥ (Rose (O.faults output.old) (O.faults output.new))
        (P.faults player.old) (P.faults player.new) result }
    ensures later { NoneFell (P.faults player.old) (P.faults player.new) }
    ensures later_out { O.faults output.old ≤ O.faults output.new }
{
    let finished = reading.finish(player);
    let told = tell(player, output);
    match first_of(finished, told) {
        Ok(()) => DriveEnd::Done,
        Err(end) => end,
    }
}
