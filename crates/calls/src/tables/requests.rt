//! Requests of HTTP, read from a link that gives its bytes in pieces.

use super::feeds::pieces;
use crate::answer::Answer;
use crate::fault::Fault;
use crate::fields::Fields;
use cw_http::{HttpFault, Request, read_request};
use cw_io::MemLink;
use std::alloc::Global;

/// `requests PIECES MOST`: the first requests that a peer's bytes hold, of which a read gives at most so many,
/// and why no further one was read.
pub fn read(alloc: Global, fields: &mut Fields<'_>, answer: &mut Answer) -> Result<(), Fault> {
    let content = pieces(alloc, fields)?;
    let most = fields.short()?;
    if most == 0 {
        return Err(Fault::NoCall);
    }
    let mut link = MemLink::new(alloc, content, 0, most as usize, Vec::new(alloc))?;
    say_requests(alloc, &mut link, answer)
}

fn say_requests(alloc: Global, link: &mut MemLink, answer: &mut Answer) -> Result<(), Fault> {
    let mut kept = Vec::new(alloc);
    for _ in 0..3 {
        match read_request(alloc, link, &mut kept) {
            Ok(request) => say_request(&request, answer)?,
            Err(fault) => return say_fault(fault, answer),
        }
    }
    Ok(())
}

fn say_request(request: &Request, answer: &mut Answer) -> Result<(), Fault> {
    answer.text(request.method.as_slice())?;
    answer.text(request.target.as_slice())?;
    answer.word(if request.close { "close" } else { "open" })?;
    answer.text(request.body.as_slice())
}

fn say_fault(fault: HttpFault, answer: &mut Answer) -> Result<(), Fault> {
    match fault {
        HttpFault::Ended => answer.word("ended"),
        HttpFault::Bad(code) => {
            answer.word("bad")?;
            answer.long(u64::from(code))
        }
        HttpFault::LinkFault => answer.word("failed"),
        HttpFault::Memory => Err(Fault::Memory),
    }
}
