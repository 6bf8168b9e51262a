//! Laws of what is in flight where a disk fails: whatever a stop leaves then stands for a state of the run, too.
ghost use Rattle.std.specs.Prelude.{◌≡◌, ℕ, List, Some, Ok};
ghost use Rattle.cw_model.specs.Facts.{AreFacts};
ghost use Rattle.cw_model.specs.State.{Setting, Cluster};
ghost use Rattle.cw_script.specs.declared.directive.Directive.{Directive};
ghost use Rattle.cw_script.specs.Lines.{line_of};
ghost use Rattle.cw_run.specs.Flight.{IsInFlight};
ghost use Rattle.cw_run.specs.Ran.{Ran};
ghost use Rattle.cw_run.specs.Reaches.{Reaches, HaveNames};

/// Where a disk fails in a line, the state before the event in flight is reached by a run, and so is the one that it
/// was to make.
pub fn what_is_in_flight_is_reached()
    ensures before { (setting : Setting) (line : List ℕ) (directive : Directive) (ran at : Ran) (next : Cluster) →
        HaveNames setting → AreFacts setting ran.cluster → line_of line ≡ Ok (Some directive) →
        IsInFlight setting directive ran at next → Reaches setting ran.cluster at.cluster }
    ensures behind { (setting : Setting) (line : List ℕ) (directive : Directive) (ran at : Ran) (next : Cluster) →
        HaveNames setting → AreFacts setting ran.cluster → line_of line ≡ Ok (Some directive) →
        IsInFlight setting directive ran at next → Reaches setting ran.cluster next }
{}
