//! Cuts what is read into lines, and has each line played as soon as it is whole.
ghost use Rattle.std.specs.Prelude.{◌≡◌, ◌+◌, ◌≤◌, ◌<◌, ◌++◌, ◌∷◌, [], true, false, length, vec_len, IfErr, OnOk};
ghost use Rattle.cw_lines.specs.Lines.{is_line};

use crate::end::DriveEnd;
use crate::lines::cut_line;
use crate::player::LinePlayer;
use std::alloc::Global;

// The most lines of a script.
const MOST_LINES: u64 = 1_000_000;

// The most bytes of a line, its end not counted.
const MOST_BYTES: usize = 65_536;

/// How far a script is read.
#[derive(Drop)]
pub(crate) struct Reading {
    // How many lines are done.
    pub(crate) count: u64,
    // The bytes of the line behind them, as far as they are read.
    pub(crate) pending: Vec<u8>,
    ghost few: { count ≤ 1000000 },
    ghost short: { vec_len pending ≤ 65536 },
    ghost begun: { 0 < vec_len pending → count < 1000000 },
    ghost unended: { is_line pending.items ≡ true },
}

impl Reading {
    ghost use Rattle.std.specs.Prelude.{◌≡◌, ◌+◌, ◌≤◌, ◌<◌, ◌++◌, ◌∷◌, [], true, false, length, vec_len, IfErr, OnOk};
    ghost use Rattle.cw_lines.specs.Lines.{is_line};
    ghost use Rattle.cw_lines.specs.Players.{NoneFell, Caused};
    ghost use Rattle.cw_lines.specs.Sessions.{Goes, EndsIn, EndsLast, Finishes};
    ghost use Rattle.cw_lines.specs.Drives.{session_of, stands, room, IsNotHeld};

    /// At the start of a script.
    #[tactic(auto, unfolding(crate::specs::Lines::is_line))]
    pub(crate) fn new(alloc: Global) -> Reading
        ensures count { result.count ≡ 0 }
        ensures pending { result.pending.items ≡ [] }
    {
        Reading {
            count: 0,
            pending: Vec::new(alloc),
        }
    }

    /// Takes bytes of the script.
    pub(crate) fn feed<P: LinePlayer>(
        &mut self,
        player: &mut P,
        piece: &[u8],
    ) -> Result<(), DriveEnd>
        requires alive { P.alive player.old }
        ensures go { OnOk result (Goes P.rules piece.now [] (session_of P.LinePlayer player.old self.old)
            (session_of P.LinePlayer player.new self.new)) }
        ensures alive { OnOk result (P.alive player.new) }
        ensures stop { IfErr result (λ end. EndsIn P.rules (stands P.LinePlayer player.new) (P.broken player.new) ⊥ end
            piece.now (session_of P.LinePlayer player.old self.old) (P.playing player.new).text) }
        ensures later { NoneFell (P.faults player.old) (P.faults player.new) }
        ensures caused { IfErr result (Caused ⊥ ⊥ (P.faults player.old) (P.faults player.new)) }
        ensures less { OnOk result (room self.new + length piece.now ≤ room self.old) }
    {
        let mut rest = piece;
        while let Some((line, more)) = cut_line(rest) {
            self.end_line(player, line)?;
            rest = more;
        }
        self.hold(rest)
    }

    /// Takes the end of the script.
    pub(crate) fn finish<P: LinePlayer>(&mut self, player: &mut P) -> Result<(), DriveEnd>
        requires alive { P.alive player.old }
        ensures go { OnOk result (Finishes P.rules (stands P.LinePlayer player.new)
            (session_of P.LinePlayer player.old self.old) (P.playing player.new).text) }
        ensures stop { IfErr result (λ end. EndsLast P.rules (stands P.LinePlayer player.new) (P.broken player.new) ⊥
            end (session_of P.LinePlayer player.old self.old) (P.playing player.new).text) }
        ensures later { NoneFell (P.faults player.old) (P.faults player.new) }
        ensures caused { IfErr result (Caused ⊥ ⊥ (P.faults player.old) (P.faults player.new)) }
        ensures idle { self.old.pending.items ≡ [] → player.new ≡ player.old }
    {
        if self.pending.is_empty() {
            return Ok(());
        }
        player.play_line(self.count + 1, &self.pending)
    }

    // Takes the rest of a line, whose end is read.
    fn end_line<P: LinePlayer>(&mut self, player: &mut P, tail: &[u8]) -> Result<(), DriveEnd>
        requires alive { P.alive player.old }
        requires whole { is_line tail.now ≡ true }
        ensures go { OnOk result (Goes P.rules (tail.now ++ 10 ∷ []) [] (session_of P.LinePlayer player.old self.old)
            (session_of P.LinePlayer player.new self.new)) }
        ensures alive { OnOk result (P.alive player.new) }
        ensures stop { IfErr result (λ end. EndsIn P.rules (stands P.LinePlayer player.new) (P.broken player.new) ⊥ end
            (tail.now ++ 10 ∷ []) (session_of P.LinePlayer player.old self.old) (P.playing player.new).text) }
        ensures later { NoneFell (P.faults player.old) (P.faults player.new) }
        ensures caused { IfErr result (Caused ⊥ ⊥ (P.faults player.old) (P.faults player.new)) }
        ensures less { OnOk result (room self.new + length tail.now + 1 ≤ room self.old) }
    {
        if self.pending.is_empty() {
            return self.play_whole(player, tail);
        }
        self.hold(tail)?;
        self.play_held(player)
    }

    // Plays the line that is pending, whose end is read.
    fn play_held<P: LinePlayer>(&mut self, player: &mut P) -> Result<(), DriveEnd>
        requires alive { P.alive player.old }
        requires begun { self.old.count < 1000000 }
        ensures go { OnOk result (Goes P.rules (10 ∷ []) [] (session_of P.LinePlayer player.old self.old)
            (session_of P.LinePlayer player.new self.new)) }
        ensures alive { OnOk result (P.alive player.new) }
        ensures stop { IfErr result (λ end. EndsIn P.rules (stands P.LinePlayer player.new) (P.broken player.new) ⊥ end
            (10 ∷ []) (session_of P.LinePlayer player.old self.old) (P.playing player.new).text) }
        ensures later { NoneFell (P.faults player.old) (P.faults player.new) }
        ensures caused { IfErr result (Caused ⊥ ⊥ (P.faults player.old) (P.faults player.new)) }
        ensures less { OnOk result (room self.new + 1 ≤ room self.old) }
    {
        player.play_line(self.count + 1, &self.pending)?;
        self.pending.clear();
        self.count += 1;
        Ok(())
    }

    // Plays a line of which nothing was pending.
    fn play_whole<P: LinePlayer>(&mut self, player: &mut P, line: &[u8]) -> Result<(), DriveEnd>
        requires alive { P.alive player.old }
        requires whole { is_line line.now ≡ true }
        requires alone { self.old.pending.items ≡ [] }
        ensures go { OnOk result (Goes P.rules (line.now ++ 10 ∷ []) [] (session_of P.LinePlayer player.old self.old)
            (session_of P.LinePlayer player.new self.new)) }
        ensures alive { OnOk result (P.alive player.new) }
        ensures stop { IfErr result (λ end. EndsIn P.rules (stands P.LinePlayer player.new) (P.broken player.new) ⊥ end
            (line.now ++ 10 ∷ []) (session_of P.LinePlayer player.old self.old) (P.playing player.new).text) }
        ensures later { NoneFell (P.faults player.old) (P.faults player.new) }
        ensures caused { IfErr result (Caused ⊥ ⊥ (P.faults player.old) (P.faults player.new)) }
        ensures less { OnOk result (room self.new + length line.now + 1 ≤ room self.old) }
    {
        if self.count >= MOST_LINES {
            return Err(DriveEnd::TooLong(MOST_LINES + 1));
        }
        if line.len() > MOST_BYTES {
            return Err(DriveEnd::TooLong(65_537));
        }
        player.play_line(self.count + 1, line)?;
        self.count += 1;
        Ok(())
    }

    // Takes bytes of a line whose end isn't read yet.
    fn hold(&mut self, tail: &[u8]) -> Result<(), DriveEnd>
        requires whole { is_line tail.now ≡ true }
        ensures count { self.new.count ≡ self.old.count }
        ensures pending { OnOk result (self.new.pending.items ≡ self.old.pending.items ++ tail.now) }
        ensures stop { IfErr result (IsNotHeld self.old.count (length self.old.pending.items) (length tail.now)) }
        ensures less { OnOk result (room self.new + length tail.now ≤ room self.old) }
    {
        if tail.is_empty() {
            return Ok(());
        }
        if self.count >= MOST_LINES {
            return Err(DriveEnd::TooLong(MOST_LINES + 1));
        }
        if tail.len() > MOST_BYTES - self.pending.len() {
            return Err(DriveEnd::TooLong(65_537));
        }
        self.pending.extend_from_slice(tail)?;
        Ok(())
    }
}
