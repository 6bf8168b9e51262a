//! Plans of a leader.

use crate::answer::Answer;
use crate::fault::Fault;
use crate::fields::Fields;
use cw_assign::{Holder, Plan, plan};
use cw_types::Listed;
use std::alloc::Global;

/// `plan MEMBERS CONFIGURED LOST RUNNING`: the share of each member.
pub fn plan_call(alloc: Global, fields: &mut Fields<'_>, answer: &mut Answer) -> Result<(), Fault> {
    let members = holders(alloc, fields)?;
    let configured = fields.items(alloc)?;
    let lost = fields.items(alloc)?;
    let running = fields.flag()?;
    if members.is_empty() {
        return Err(Fault::NoCall);
    }
    let made = plan(alloc, &members, &configured, &lost, running)?;
    say_shares(&made, answer)
}

fn holders(alloc: Global, fields: &mut Fields<'_>) -> Result<Vec<Holder>, Fault> {
    let count = fields.short()?;
    let mut members = Vec::new(alloc);
    for _ in 0..count {
        members.push(Holder {
            worker: fields.short()?,
            held: Listed::new(fields.items(alloc)?),
        })?;
    }
    Ok(members)
}

/// Says the share of each member.
pub fn say_shares(plan: &Plan, answer: &mut Answer) -> Result<(), Fault> {
    answer.count(plan.shares.as_slice().len())?;
    for share in plan.shares.as_slice() {
        answer.long(u64::from(share.worker))?;
        answer.items(share.kept.as_slice())?;
        answer.items(share.fresh.as_slice())?;
        answer.items(share.revoked.as_slice())?;
    }
    Ok(())
}
