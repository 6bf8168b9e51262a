//! Laws of scripts: whatever the lines, what they do is a run of the cluster's events, and so every state is safe.
ghost use Rattle.std.specs.Prelude.{◌≡◌, ℕ, List};
ghost use Rattle.cw_model.specs.State.{Setting, Cluster};
ghost use Rattle.cw_model.specs.Facts.{AreFacts};
ghost use Rattle.cw_model.specs.Grows.{Grows};
ghost use Rattle.cw_model.specs.Journal.{IsTrueJournal};
ghost use Rattle.cw_model.specs.Safe.{IsSafe};
ghost use Rattle.cw_model.specs.Steps.{step};
ghost use Rattle.cw_model.specs.Tick.{tick};
ghost use Rattle.cw_script.specs.declared.directive.Directive.{Directive};
ghost use Rattle.cw_script.specs.Spelling.{IsSayable};
ghost use Rattle.cw_lines.specs.Players.{player_of};
ghost use Rattle.cw_lines.specs.Plays as plays;
ghost use Rattle.cw_run.specs.Amid.{IsAmid};
ghost use Rattle.cw_run.specs.Ran.{Ran};
ghost use Rattle.cw_run.specs.Reaches.{Reaches, HaveNames};
ghost use Rattle.cw_run.specs.Rules.{drive_rules, in_cluster};
ghost use Rattle.cw_run.specs.Run.{play_line, run, run_of_lines};
ghost use Rattle.cw_run.specs.Settling.{settles};

/// A worker's tick and an instance's step make events, each where it may be made.
pub fn turns_are_runs()
    ensures tick { (setting : Setting) (s : Cluster) (w : ℕ) → AreFacts setting s → Reaches setting s (tick w s).1 }
    ensures step { (setting : Setting) (s : Cluster) (i : ℕ) → AreFacts setting s →
        Reaches setting s (step setting i s).1 }
{}

/// So does a cluster that settles.
pub fn settling_is_a_run()
    ensures { (setting : Setting) (s : Cluster) (most : ℕ) → AreFacts setting s →
        Reaches setting s (settles setting most s).1 }
{}

/// Whatever a line says, what it does is a run: a request, too, writes only what may be written.
pub fn each_line_is_a_run()
    ensures { (setting : Setting) (number : ℕ) (line : List ℕ) (s : Cluster) → HaveNames setting →
        AreFacts setting s → Reaches setting s (play_line setting number line s).store }
{}

/// So is what a script does, and what its first lines do, however many.
pub fn each_script_is_a_run()
    ensures whole { (setting : Setting) (script : List ℕ) (s : Cluster) → HaveNames setting → AreFacts setting s →
        Reaches setting s (run setting s script).store }
    ensures lines { (setting : Setting) (script : List ℕ) (count : ℕ) (s : Cluster) → HaveNames setting →
        AreFacts setting s → Reaches setting s (run_of_lines setting count s script).store }
{}

/// And so is what a directive did where it was left on its way, since memory ran out.
pub fn each_interrupted_line_is_a_run()
    ensures { (setting : Setting) (directive : Directive) (s t : Cluster) → HaveNames setting → AreFacts setting s →
        IsSayable directive → IsAmid setting directive s t → Reaches setting s t }
{}

/// The same of any line that was left on its way, whatever became of the files; and what is played by the rules is, of
/// the cluster, what the run of the script says: its answers, its end and the cluster's states don't hang on the files.
pub fn each_line_on_its_way_is_a_run()
    ensures amid { (setting : Setting) (number : ℕ) (line : List ℕ) (r t : Ran) → HaveNames setting →
        AreFacts setting r.cluster → drive_rules.amid setting number line r t → Reaches setting r.cluster t.cluster }
    ensures same { (setting : Setting) (number : ℕ) (line : List ℕ) (r : Ran) →
        in_cluster (player_of drive_rules setting number line r) ≡ play_line setting number line r.cluster }
    ensures tells { (setting : Setting) (number : ℕ) (line : List ℕ) (r : Ran) →
        (player_of drive_rules setting number line r).store.tells ≡ r.tells }
{}

/// The same of a whole script, of what was read of one so far, and of the first lines of one.
pub fn each_script_is_played_alike()
    ensures whole { (setting : Setting) (script : List ℕ) (r : Ran) →
        in_cluster (plays.run (player_of drive_rules setting) r script) ≡ run setting r.cluster script }
    ensures so_far { (setting : Setting) (script : List ℕ) (r : Ran) →
        in_cluster (plays.run_so_far (player_of drive_rules setting) r script) ≡
        plays.run_so_far (play_line setting) r.cluster script }
    ensures lines { (setting : Setting) (count : ℕ) (script : List ℕ) (r : Ran) →
        in_cluster (plays.behind_lines (player_of drive_rules setting) count script r) ≡
        run_of_lines setting count r.cluster script }
{}

/// A state that is reached has all facts again, and so every state of a run is safe and has a true journal; and what
/// was written, answered and read before stands in it.
pub fn what_is_reached_is_safe()
    ensures facts { (setting : Setting) (s t : Cluster) → Reaches setting s t → AreFacts setting s →
        AreFacts setting t }
    ensures safe { (setting : Setting) (s t : Cluster) → Reaches setting s t → AreFacts setting s → IsSafe setting t }
    ensures journal { (setting : Setting) (s t : Cluster) → Reaches setting s t → AreFacts setting s →
        IsTrueJournal setting t }
    ensures grows { (setting : Setting) (s t : Cluster) → Reaches setting s t → AreFacts setting s → Grows s t }
{}
