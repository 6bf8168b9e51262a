//! What a request is answered.
ghost use Rattle.std.specs.Prelude.{◌≡◌, IfOk};

use cw_types::Listed;
use std::alloc::AllocError;

/// A reply: a status code and a body, which is a JSON text or empty.
#[derive(Debug, Drop)]
pub struct Reply {
    /// The status code of HTTP.
    pub code: u16,
    /// The body.
    pub body: Listed<u8>,
}

impl Reply {
    /// A copy.
    pub fn copy(&self) -> Result<Reply, AllocError>
        ensures { IfOk result (λ reply. reply ≡ self.now) }
    {
        Ok(Reply {
            code: self.code,
            body: self.body.copy()?,
        })
    }
}
