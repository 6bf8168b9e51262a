//! What is known of the group and of producers in every state that has all facts, sentence by sentence.
ghost use Rattle.std.specs.Prelude.{◌≡◌, ◌≢◌, ◌≤◌, ◌<◌, ℕ, List, map, true, Some};
ghost use Rattle.std.specs.List.{zip, AllByRecursion, IsDistinct};
ghost use Rattle.cw_types.specs.declared.ids.Item.{Item};
ghost use Rattle.cw_types.specs.declared.ids.TaskId.{TaskId};
ghost use Rattle.cw_types.specs.declared.ids.Tid.TheVariants.{Task};
ghost use Rattle.cw_assign.specs.declared.delay.Delay.TheVariants.{Idle};
ghost use Rattle.cw_assign.specs.Items.{same_item};
ghost use Rattle.cw_config.specs.View.{fenced_count_of};
ghost use Rattle.cw_group.specs.Members.{member_of};
ghost use Rattle.cw_group.specs.declared.answers.Phase.TheVariants.{Planned};
ghost use Rattle.cw_group.specs.declared.member.Member.{Member};
ghost use Rattle.cw_plugin.specs.Tasks.{ShareNone};
ghost use Rattle.cw_model.specs.declared.row.Fencing.{Fencing};
ghost use Rattle.cw_model.specs.declared.row.RowPhase.TheVariants.{Stable};
ghost use Rattle.cw_model.specs.State.{Setting, Cluster};
ghost use Rattle.cw_model.specs.Safe.{IsBacked, IsDisjoint};
ghost use Rattle.cw_model.specs.Committed.{batches_of};
ghost use Rattle.cw_model.specs.EventsItems.{spec_in};
ghost use Rattle.cw_model.specs.Facts.{AreFacts};
ghost use Rattle.cw_model.specs.FactsGroup.{AreAmong, Claims, IsAsTold, IsWithinPlan, shared_items};
ghost use Rattle.cw_model.specs.FactsProducers.{HasItsBatch, HasUsed, IsFencing, IsNewest, IsToBeFenced, IsUnfenced};
ghost use Rattle.cw_model.specs.FactsProducers.{Writes, batches_up_to, commits_up_to, tag_in_hand};
ghost use Rattle.cw_model.specs.Fences.{fenced_generation_of};
ghost use Rattle.cw_model.specs.Lookups.{end_or_start, held, instance_of, is_member, last_epoch, row_of};
ghost use Rattle.cw_model.specs.Phases.{has_epoch, has_open_transaction, is_fetched};
ghost use Rattle.cw_model.specs.Tasks.{parts_of};

/// The facts of the group (KIP-415): members run nothing in common, each within its claim, and know the round that
/// they are in; a plan gives what is planned, each item once, and forgets nothing unless a return is waited for.
pub fn world_facts_hold()
    // Two current members hold nothing in common, and what is committed stands in the data log.
    ensures disjoint { (setting : Setting) (s : Cluster) → AreFacts setting s → IsDisjoint s }
    ensures backed { (setting : Setting) (s : Cluster) → AreFacts setting s → IsBacked s }
    // What a current member holds, and what its row is assigned, is within its claim.
    ensures held { (setting : Setting) (s : Cluster) (w : ℕ) (claim : List Item) → AreFacts setting s →
        Claims s w claim → AreAmong (held w s) claim }
    ensures assigned { (setting : Setting) (s : Cluster) (w : ℕ) (claim : List Item) → AreFacts setting s →
        Claims s w claim → AreAmong (row_of w s).assigned claim }
    // Each member of the group is a worker whose row has the incarnation that the group has for it.
    ensures known { (setting : Setting) (s : Cluster) (w : ℕ) (member : Member) → AreFacts setting s →
        member_of w s.group.members ≡ Some member → is_member w s ≡ true }
    // While the phase is Planned: what a member keeps or is newly given is within its claim and planned; no item stands
    // twice in all that the shares keep, newly give and take away; and who is told of the round is told just this.
    ensures within { (setting : Setting) (s : Cluster) → AreFacts setting s → s.group.phase ≡ Planned →
        AllByRecursion (IsWithinPlan s.group.planned) s.group.members }
    ensures once { (setting : Setting) (s : Cluster) → AreFacts setting s → s.group.phase ≡ Planned →
        IsDistinct same_item (shared_items s.group.members) }
    ensures told { (setting : Setting) (s : Cluster) (w leader : ℕ) → AreFacts setting s → s.group.phase ≡ Planned →
        is_member w s ≡ true → (row_of w s).phase ≡ Stable s.group.round leader → IsAsTold s w leader }
    // While also no delay runs, each planned item stands in some member's share.
    ensures all_given { (setting : Setting) (s : Cluster) → AreFacts setting s → s.group.phase ≡ Planned →
        s.delay ≡ Idle → AreAmong s.group.planned (shared_items s.group.members) }
{}

/// The facts of producers (KIP-618, KIP-98): one that isn't fenced is of the generation for which its connector's last
/// fence stands, goes on where its parts ended, alone, and has one batch for each commit.
pub fn producer_facts_hold()
    // An unfenced producer is of that generation, and among the tasks that the fence counts.
    ensures generation { (setting : Setting) (s : Cluster) (n : ℕ) (id : TaskId) → AreFacts setting s →
        IsUnfenced s n id →
        fenced_generation_of id.connector s.configs ≡ Some (instance_of n s).generation }
    ensures counted { (setting : Setting) (s : Cluster) (n : ℕ) (id : TaskId) → AreFacts setting s →
        IsUnfenced s n id → id.index < fenced_count_of id.connector s.configs }
    // Once it polls, its position in each of its parts is that part's end, 0 for none.
    ensures positions { (setting : Setting) (s : Cluster) (n : ℕ) (id : TaskId) → AreFacts setting s →
        IsUnfenced s n id → is_fetched (instance_of n s).phase ≡ true → (instance_of n s).positions ≡
        map (λ part. end_or_start part s.entries) (parts_of (instance_of n s)) }
    // Two of one connector have no part in common; one of the newest generation does what its task's record asks.
    ensures apart { (setting : Setting) (s : Cluster) (m n : ℕ) (a b : TaskId) → AreFacts setting s → m ≢ n →
        IsUnfenced s m a → IsUnfenced s n b → a.connector ≡ b.connector →
        ShareNone (parts_of (instance_of m s)) (parts_of (instance_of n s)) }
    ensures task { (setting : Setting) (s : Cluster) (n : ℕ) (id : TaskId) → AreFacts setting s → IsNewest s n id →
        spec_in s.configs id ≡ (instance_of n s).task }
    // While its transaction is open, the data log has exactly one batch of it: from its position to its cut, with what
    // its source yields between.
    ensures one_batch { (setting : Setting) (s : Cluster) (n : ℕ) (id : TaskId) (epoch : ℕ) → AreFacts setting s →
        Writes s n id epoch → has_open_transaction (instance_of n s).phase ≡ true → HasItsBatch setting.feeds
        (batches_of s.batches) (tag_in_hand id epoch (instance_of n s)) (instance_of n s) }
    // Where the leader of the last lead epoch fences a connector, an older unfenced producer's turn is still to come,
    // and it is one of those that are counted.
    ensures fencing { (setting : Setting) (s : Cluster) (w n : ℕ) (fencing : Fencing) (id : TaskId) →
        AreFacts setting s → IsFencing s w fencing → IsUnfenced s n id → id.connector ≡ fencing.connector →
        (instance_of n s).generation < fencing.generation → IsToBeFenced fencing id.index }
    // An instance of the newest generation has no position above its part's end.
    ensures not_ahead { (setting : Setting) (s : Cluster) (n : ℕ) (id : TaskId) → AreFacts setting s →
        IsNewest s n id → AllByRecursion (λ p. p.1 ≤ end_or_start p.0 s.entries)
        (zip (parts_of (instance_of n s)) (instance_of n s).positions) }
    // No two instances have one id and one epoch, and none has an epoch above its id's last.
    ensures one_epoch { (setting : Setting) (s : Cluster) (m n : ℕ) (id : TaskId) (epoch : ℕ) → AreFacts setting s →
        m ≢ n → Writes s m id epoch → Writes s n id epoch → ⊥ }
    ensures known_epochs { (setting : Setting) (s : Cluster) (n : ℕ) (id : TaskId) (epoch : ℕ) → AreFacts setting s →
        Writes s n id epoch → epoch ≤ last_epoch (Task id) s }
    // Of its id and epoch nothing is written before it polls, and then nothing of its next number or a later one but
    // the one batch of its open transaction.
    ensures numbers { (setting : Setting) (s : Cluster) (n : ℕ) (id : TaskId) (epoch : ℕ) → AreFacts setting s →
        Writes s n id epoch → has_epoch (instance_of n s).phase ≡ true →
        HasUsed s id epoch (batches_up_to (instance_of n s)) (commits_up_to (instance_of n s)) }
{}
