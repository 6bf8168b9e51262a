//! THE TRUSTED EDGE: a link that is a TCP stream of the system. No clause can say what a peer sends or
//! receives, so it tells no content; what is proved is that it counts its faults.
ghost use Rattle.std.specs.Prelude.{◌≡◌};

use crate::link::Link;
use crate::traits::Failed;
use std::io::{Read, Write};
use std::net::TcpStream;

/// A link over a TCP stream, which is closed where the link is dropped. A stream that takes nothing of a
/// piece has failed.
#[derive(Drop)]
pub struct TcpLink {
    stream: TcpStream,
    faults: u64,
}

impl TcpLink {
    /// A link over this stream, with no fault so far.
    pub fn new(stream: TcpStream) -> TcpLink
        ensures { ⟦<TcpLink as Link>⟧.faults result ≡ 0 }
    {
        TcpLink { stream, faults: 0 }
    }
}

impl Link for TcpLink {
    ghost use Rattle.std.specs.Prelude.{None};

    ghost left = { λ _. None };

    ghost held = { λ _. None };

    ghost faults = { λ k. k.faults };

    fn read(&mut self, into: &mut [u8]) -> Result<usize, Failed> {
        match self.stream.read(into) {
            Ok(count) => Ok(count),
            Err(_) => {
                self.faults = self.faults.saturating_add(1);
                Err(Failed)
            }
        }
    }

    fn write(&mut self, from: &[u8]) -> Result<usize, Failed> {
        match self.stream.write(from) {
            Ok(count) if count > 0 || from.is_empty() => Ok(count),
            _ => {
                self.faults = self.faults.saturating_add(1);
                Err(Failed)
            }
        }
    }
}
