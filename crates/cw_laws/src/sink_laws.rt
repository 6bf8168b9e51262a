//! A sink's task hands out committed records, and stores how far it came.
ghost use Rattle.std.specs.Prelude.{ℕ};
ghost use Rattle.cw_model.specs.State.{Setting, Cluster};
ghost use Rattle.cw_model.specs.EventsSinks.{deliver, put_sink, MayDeliver, MayPutSink};
ghost use Rattle.cw_laws.specs.Laws.{Keeps};

/// A sink's task hands out records that are settled, or stores how far it came under its own epoch: a state that had
/// all facts has them behind it.
pub fn sinks_keep_facts()
    ensures deliver { (setting : Setting) (s : Cluster) (i turn to : ℕ) → MayDeliver i turn to s →
        Keeps setting s (deliver i turn to s) }
    ensures put_sink { (setting : Setting) (s : Cluster) (i to : ℕ) → MayPutSink i to s →
        Keeps setting s (put_sink i to s) }
{}
