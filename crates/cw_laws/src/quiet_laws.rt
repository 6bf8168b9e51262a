//! What a quiet cluster has done, in four laws one on the other, and that it has then done all.
ghost use Rattle.std.specs.Prelude.{ℕ};
ghost use Rattle.cw_types.specs.declared.ids.TaskId.{TaskId};
ghost use Rattle.cw_model.specs.State.{Setting, Cluster};
ghost use Rattle.cw_model.specs.Lookups.{instance_of};
ghost use Rattle.cw_model.specs.Facts.{AreFacts};
ghost use Rattle.cw_model.specs.FactsProducers.{IsNewest};
ghost use Rattle.cw_model.specs.Quiet.{PollsNothing, IsThrough, IsDone};
ghost use Rattle.cw_laws.specs.QuietLaws.{IsCalm, IsSettledGroup, IsAssigned, IsRunning};

/// In a quiet state in which nothing is waited for the round is planned, and each member has its
/// assignment and nothing to give up (KIP-415).
pub fn quiet_group_is_settled()
    ensures { (setting : Setting) (s : Cluster) → IsCalm setting s → IsSettledGroup s }
{}

/// What is configured is what is planned, and each item of it is assigned to exactly one member.
pub fn quiet_items_are_assigned()
    ensures { (setting : Setting) (s : Cluster) → IsCalm setting s → IsAssigned s }
{}

/// No configured connector waits for a fence, each that isn't stopped has the tasks that it asks for, and
/// each assigned item runs at its member and at no other.
pub fn quiet_items_run()
    ensures { (setting : Setting) (s : Cluster) → IsCalm setting s → IsRunning s }
{}

/// Where an instance of a task of the newest generation finds nothing more, none of its source's parts has
/// a whole line behind what is committed of it, and each sequence is committed to its count.
pub fn tasks_at_their_end_are_through()
    ensures { (setting : Setting) (s : Cluster) (n : ℕ) (id : TaskId) → AreFacts setting s → IsNewest s n id →
        (polls : PollsNothing setting s (instance_of n s)) → IsThrough setting s polls.task }
{}

/// So all is done: each configured connector that isn't stopped has its tasks, all of it runs, and where it
/// is started its sources are read through.
pub fn quiet_is_done()
    ensures { (setting : Setting) (s : Cluster) → IsCalm setting s → IsDone setting s }
{}
