//! A group of workers: its members, the rounds in which they agree on a plan, and what each may run
//! (Kafka's group membership, with the rounds of KIP-415).
//!
//! Its public contract says of each call which refusal comes first, or what the group is behind it, and
//! that no item is ever in the claims of two members; and of the group over time what departed members held, and until
//! when it waits.
//! It stands on the items of `cw_types` and the plans of `cw_assign`.
#![tactic(auto)]

mod answers;
mod circle;
mod group;
mod member;

pub use answers::{GroupFault, Phase, Synced};
pub use circle::Circle;
pub use group::Group;
pub use member::Member;
