ghost use Rattle.std.specs.Prelude.{◌≡◌, false, None, is_some};

use crate::again::{read_again, write_again};
use aws_world::{Link, LinkFault};
use json_doc::Text;
use std::io;
use std::io::ErrorKind;
use std::net::{TcpStream, ToSocketAddrs};
use std::time::Duration;

/// How long connecting, sending and a peer's silence may take, in seconds.
const TIMEOUT: u64 = 60;

/// TCP connections.
#[derive(Drop)]
pub struct RealLink<'a> {
    rt: &'a HostRuntime,
    stream: Option<TcpStream>,
    heard: bool,
    faults: u64,
}

impl<'a> RealLink<'a> {
    pub fn new(rt: &'a HostRuntime) -> RealLink<'a>
        ensures { is_some result.stream ≡ false }
    {
        RealLink {
            rt,
            stream: None,
            heard: false,
            faults: 0,
        }
    }

    fn open(&self, host: &str, port: u16) -> io::Result<TcpStream> {
        let limit = Duration::from_secs(TIMEOUT);
        let stream = connected(self.rt, host, port, limit)?;
        stream.set_read_timeout(Some(limit))?;
        stream.set_write_timeout(Some(limit))?;
        Ok(stream)
    }
}

/// A connection to the first of the host's addresses that answers within the limit.
fn connected(rt: &HostRuntime, host: &str, port: u16, limit: Duration) -> io::Result<TcpStream> {
    let mut last = io::Error::from(ErrorKind::AddrNotAvailable);
    for address in (host, port).to_socket_addrs(rt)? {
        match TcpStream::connect_timeout(rt, &address, limit) {
            Ok(stream) => return Ok(stream),
            Err(error) => last = error,
        }
    }
    Err(last)
}

/// What an error of a live connection is.
fn fault_of(error: &io::Error) -> LinkFault {
    match error.kind() {
        ErrorKind::WouldBlock | ErrorKind::TimedOut => LinkFault::Timeout,
        _ => LinkFault::Broken,
    }
}

impl Link for RealLink<'_> {
    ghost told = { λ _. None };

    ghost live = { λ link. is_some link.stream };

    ghost heard = { λ link. link.heard };

    ghost faults = { λ link. link.faults };

    fn connect(&mut self, host: &Text, port: u16) -> Result<(), LinkFault> {
        self.heard = false;
        match self.open(host.as_str(), port) {
            Ok(stream) => {
                self.stream = Some(stream);
                Ok(())
            }
            Err(_) => {
                self.faults = self.faults.saturating_add(1);
                Err(LinkFault::Connect)
            }
        }
    }

    fn send(&mut self, piece: &[u8]) -> Result<usize, LinkFault> {
        let Some(stream) = &mut self.stream else {
            unreachable!()
        };
        let fault = match write_again(stream, piece) {
            Ok(count) if count > 0 => return Ok(count),
            Ok(_) => LinkFault::Broken,
            Err(error) => fault_of(&error),
        };
        self.faults = self.faults.saturating_add(1);
        Err(fault)
    }

    fn receive(&mut self, room: &mut [u8]) -> Result<usize, LinkFault> {
        self.heard = true;
        let Some(stream) = &mut self.stream else {
            unreachable!()
        };
        match read_again(stream, room) {
            Ok(count) => Ok(count),
            Err(error) => {
                self.faults = self.faults.saturating_add(1);
                Err(fault_of(&error))
            }
        }
    }

    fn close(&mut self) {
        self.stream = None;
    }
}

#[cfg(test)]
mod tests {
    use super::*;
    use std::io::{Read, Write};
    use std::net::TcpListener;
    use std::test::Fail;

    #[test]
    fn talks_over_loopback(rt: HostRuntime) -> Result<(), Fail> {
        let listener = TcpListener::bind(&rt, "127.0.0.1:0")?;
        let port = listener.local_addr()?.port();
        let host = Text::from_str(rt.alloc(), "127.0.0.1")?;
        let mut link = RealLink::new(&rt);
        assert_eq!(rt; link.connect(&host, port), Ok(()));
        let (mut peer, _) = listener.accept()?;
        assert_eq!(rt; link.send(b"ping"), Ok(4));
        let mut room = [0u8; 8];
        assert_eq!(rt; peer.read(&mut room)?, 4);
        assert_eq!(rt; room[..4], *b"ping".as_slice());
        peer.write_all(b"pong")?;
        drop(peer);
        assert_eq!(rt; link.receive(&mut room), Ok(4));
        assert_eq!(rt; room[..4], *b"pong".as_slice());
        assert_eq!(rt; link.receive(&mut room), Ok(0));
        link.close();
        drop(listener);
        assert_eq!(rt; link.connect(&host, port), Err(LinkFault::Connect));
        Ok(())
    }
}
