//! Events of a script's producers.
use crate::line::Line;
use crate::refusal::Made;
use crate::stage::Trial;
use cw_types::Epoch;

/// `raw_init N` answers the epoch.
pub(crate) fn raw_init(world: &mut Trial, line: &mut Line<'_>) -> Made {
    let epoch = world.raw_init(line.short()?)?;
    line.tell(epoch.0)
}

/// `raw_commit N EPOCH PART TO`: a part is committed up to a new end. It answers the span.
pub(crate) fn raw_commit(world: &mut Trial, line: &mut Line<'_>) -> Made {
    let n = line.short()?;
    let epoch = Epoch(line.long()?);
    let list = [(line.short()?, line.long()?)];
    for span in world.raw_commit(n, epoch, &list)?.as_slice() {
        line.tell_span(span)?;
    }
    Ok(())
}
