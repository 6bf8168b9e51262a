//! Who plays the lines of a script.
ghost use Rattle.std.specs.Prelude.{◌≡◌, ◌≤◌, ℕ, List, [], length, OnOk, IfErr};
ghost use Rattle.cw_lines.specs.Players.{Faults, NoneFell, Caused, Rules, Playing, IsAt, HasPlayed, HasStopped};

use crate::end::DriveEnd;

/// Plays the lines of a script over a state of its own, and holds their answers until these are written.
pub trait LinePlayer {
    /// What it is set to, once and for all.
    ghost Setting: { Type 0 };

    /// Its states.
    ghost State: { Type 0 };

    /// What the lines do.
    ghost rules: { Rules Setting State };

    /// What it is set to, its state, and the answers that aren't written yet.
    ghost playing: { Self → Playing Setting State };

    /// Whether it can play on: nothing that it writes to is broken.
    ghost alive: { Self → Type 0 };

    /// The counts of faults of what it writes to.
    ghost faults: { Self → Faults };

    /// What is left where a disk failed: in the line of that number, played from that state, with those last words.
    ghost broken: { Self → ℕ → List ℕ → State → List ℕ → Type 0 };

    /// Plays a whole line that is within the limits. What it says stands behind the answers that aren't written yet.
    fn play_line(&mut self, number: u64, line: &[u8]) -> Result<(), DriveEnd>
        requires alive { alive self.old }
        requires few { number ≤ 1000000 }
        requires short { length line.now ≤ 65536 }
        ensures go { OnOk result (HasPlayed
            (rules.does (playing self.old).setting number line.now (playing self.old).state)
            (playing self.old) (playing self.new)) }
        ensures alive { OnOk result (alive self.new) }
        ensures stop { IfErr result (λ end. HasStopped end
            (rules.amid (playing self.old).setting number line.now) (IsAt (alive self.new) (playing self.new))
            (broken self.new number line.now)
            (rules.does (playing self.old).setting number line.now (playing self.old).state)
            (playing self.old) (playing self.new).text) }
        ensures later { NoneFell (faults self.old) (faults self.new) }
        ensures caused { IfErr result (Caused ⊥ ⊥ (faults self.old) (faults self.new)) };

    /// The answers that aren't written yet.
    fn answers(&self) -> &[u8]
        ensures { result.now ≡ (playing self.now).text };

    /// Forgets the answers, once they are written.
    fn forget(&mut self)
        ensures playing { playing self.new ≡ record (playing self.old) { text = [] } }
        ensures alive { alive self.old → alive self.new }
        ensures faults { faults self.new ≡ faults self.old }
        ensures broken { (number : ℕ) (line : List ℕ) (state : State) (words : List ℕ) →
            broken self.old number line state words → broken self.new number line state words };
}
