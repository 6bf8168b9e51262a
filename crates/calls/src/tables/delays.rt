//! The delay that lost items wait for.

use crate::answer::Answer;
use crate::fault::Fault;
use crate::fields::Fields;
use cw_assign::Delay;

/// `delay idle NOW` and `delay started START LENGTH NOW`: until when it runs, and whether it is due.
pub fn delay(fields: &mut Fields<'_>, answer: &mut Answer) -> Result<(), Fault> {
    let delay = match fields.word()? {
        "idle" => Delay::Idle,
        "started" => Delay::started(fields.long()?, fields.long()?),
        _ => return Err(Fault::NoCall),
    };
    let now = fields.long()?;
    match delay {
        Delay::Idle => answer.word("idle")?,
        Delay::Until(moment) => answer.long(moment)?,
    }
    answer.flag(delay.is_due(now))
}
