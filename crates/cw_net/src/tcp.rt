//! THE TRUSTED EDGE: a listener that is a TCP port of the system. No clause can say who connects; what is proved is
//! that it counts its links and its faults.
ghost use Rattle.std.specs.Prelude.{◌≡◌, [], false};

use crate::listener::Listener;
use cw_io::{Failed, TcpLink};
use cw_types::Past;
use std::io;
use std::net::{Net, TcpListener, TcpStream};

// Where the REST API of a Kafka Connect worker listens by default, on this machine alone.
const ADDRESS: &str = "127.0.0.1:8083";

/// A listener on port 8083 of this machine's own address, from its first call on. It never ends.
#[derive(Drop)]
pub struct PortListener<'r, R: Net<Listener = TcpListener, Stream = TcpStream>> {
    system: &'r R,
    listener: Option<TcpListener>,
    given: Past<TcpLink>,
    faults: u64,
}

impl<'r, R: Net<Listener = TcpListener, Stream = TcpStream>> PortListener<'r, R> {
    /// A listener that has given no link yet. It doesn't listen before its first call.
    pub fn new(system: &'r R) -> PortListener<'r, R>
        ensures given { ⟦<PortListener<'r, R> as Listener>⟧.given result ≡ [] }
        ensures ended { ⟦<PortListener<'r, R> as Listener>⟧.ended result ≡ false }
        ensures faults { ⟦<PortListener<'r, R> as Listener>⟧.faults result ≡ 0 }
    {
        PortListener {
            system,
            listener: None,
            given: Past::new(),
            faults: 0,
        }
    }
}

impl<R: Net<Listener = TcpListener, Stream = TcpStream>> Listener for PortListener<'_, R> {
    type Link = TcpLink;

    ghost given = { λ l. l.given.items };

    ghost ended = { λ _. false };

    ghost faults = { λ l. l.faults };

    fn accept(&mut self) -> Result<Option<TcpLink>, Failed> {
        match next_stream(self.system, &mut self.listener) {
            Ok(stream) => {
                let link = TcpLink::new(stream);
                self.given = self.given.and(&link);
                Ok(Some(link))
            }
            Err(_) => {
                self.faults = self.faults.saturating_add(1);
                Err(Failed)
            }
        }
    }
}

// Waits for the next connection. The first call binds the port.
fn next_stream<R: Net<Listener = TcpListener, Stream = TcpStream>>(
    system: &R,
    listener: &mut Option<TcpListener>,
) -> io::Result<TcpStream> {
    if listener.is_none() {
        *listener = Some(TcpListener::bind(system, ADDRESS)?);
    }
    match listener {
        Some(listener) => {
            let stream = listener.accept()?.0;
            // The end of a reply isn't held back until its beginning is acknowledged, where the system lets it be so.
            let _ = stream.set_nodelay(true);
            Ok(stream)
        }
        None => unreachable!(),
    }
}
