//! Calls of the offsets.

use crate::answer::Answer;
use crate::fault::Fault;
use crate::fields::Fields;
use crate::states::States;
use cw_offset::OffsetState;
use std::alloc::Global;

/// `offsets CALL ..`: a change, what is committed of a part, or which transaction is to be marked, as the
/// transactions of `coordinator` tell.
pub fn call(
    states: &mut States,
    fields: &mut Fields<'_>,
    answer: &mut Answer,
) -> Result<(), Fault> {
    let alloc = states.alloc;
    match fields.word()? {
        "begin" => states.offsets = OffsetState::new(alloc),
        "stand" => states.offsets.stand(&fields.tag(alloc)?)?,
        "put" => put(alloc, &mut states.offsets, fields)?,
        "commit" => states.offsets.commit(&fields.tag(alloc)?)?,
        "abort" => states.offsets.abort(&fields.tag(alloc)?)?,
        "set" => set(alloc, &mut states.offsets, fields)?,
        "unreserve" => states.offsets.unreserve(),
        "committed" => return committed(alloc, &states.offsets, fields, answer),
        "first_unmarked" => {
            return answer.some_tag(states.offsets.first_unmarked(&states.coordinator));
        }
        word => reserve(alloc, &mut states.offsets, word, fields)?,
    }
    answer.word("ok")
}

fn committed(
    alloc: Global,
    offsets: &OffsetState,
    fields: &mut Fields<'_>,
    answer: &mut Answer,
) -> Result<(), Fault> {
    let part = fields.part(alloc)?;
    answer.some_long(offsets.committed(&part))
}

fn reserve(
    alloc: Global,
    offsets: &mut OffsetState,
    word: &str,
    fields: &mut Fields<'_>,
) -> Result<(), Fault> {
    match word {
        "reserve_stand" => offsets.reserve_stand(&fields.tag(alloc)?)?,
        "reserve_put" => reserve_put(alloc, offsets, fields)?,
        "reserve_commit" => offsets.reserve_commit(&fields.tag(alloc)?)?,
        "reserve_abort" => offsets.reserve_abort(&fields.tag(alloc)?)?,
        "reserve_set" => reserve_set(alloc, offsets, fields)?,
        _ => return Err(Fault::NoCall),
    }
    Ok(())
}

fn reserve_put(
    alloc: Global,
    offsets: &mut OffsetState,
    fields: &mut Fields<'_>,
) -> Result<(), Fault> {
    let tag = fields.tag(alloc)?;
    let part = fields.part(alloc)?;
    Ok(offsets.reserve_put(&tag, &part, fields.long()?)?)
}

fn reserve_set(
    alloc: Global,
    offsets: &mut OffsetState,
    fields: &mut Fields<'_>,
) -> Result<(), Fault> {
    let part = fields.part(alloc)?;
    Ok(offsets.reserve_set(&part, fields.some_long()?)?)
}

fn put(alloc: Global, offsets: &mut OffsetState, fields: &mut Fields<'_>) -> Result<(), Fault> {
    let tag = fields.tag(alloc)?;
    let part = fields.part(alloc)?;
    let to = fields.long()?;
    Ok(offsets.put(&tag, &part, to)?)
}

fn set(alloc: Global, offsets: &mut OffsetState, fields: &mut Fields<'_>) -> Result<(), Fault> {
    let part = fields.part(alloc)?;
    let to = fields.some_long()?;
    Ok(offsets.set(&part, to)?)
}
