ghost use Rattle.std.specs.Prelude.{◌≡◌, false};
ghost use Rattle.tmc_live.specs.Net.{IsFault, Gives};

use crate::net::{Net, NetFault};
use std::alloc::Global;
use std::marker::Model;
use std::net::{SocketAddr, TcpListener, TcpStream};
use std::{io, net};
use tmc_base::TcpLink;

/// The TCP network of the system. It counts its faults, and tells nothing of its links.
///
/// An address is a host and a port, as `127.0.0.1:3240`, `[::1]:3240` or `localhost:3240`.
#[derive(Drop)]
pub struct TcpNet<R: net::Net<Listener = TcpListener, Stream = TcpStream> + Drop> {
    rt: R,
    alloc: Global,
    listener: Option<TcpListener>,
    /// Where it listens, as it was named.
    address: String,
    given: u64,
    faults: u64,
}

impl<R: net::Net<Listener = TcpListener, Stream = TcpStream> + Drop> Model for TcpNet<R> {
    ghost use Rattle.std.specs.Option.{is_some};
    ghost use Rattle.tmc_live.specs.Net.{Standing};

    ghost Value = { Standing };

    ghost view = { λ a. record { listens = is_some a.listener; given = a.given; faults = a.faults } };
}

impl<R: net::Net<Listener = TcpListener, Stream = TcpStream> + Drop> TcpNet<R> {
    /// Listens nowhere yet.
    pub fn new(alloc: Global, rt: R) -> TcpNet<R>
        ensures { result ≡ record { listens = false; given = 0; faults = 0 } }
    {
        TcpNet {
            rt,
            alloc,
            listener: None,
            address: String::new(alloc),
            given: 0,
            faults: 0,
        }
    }

    /// Where the system has it listen: the port too, where the address left it open as port 0.
    pub fn local_addr(&self) -> io::Result<SocketAddr> {
        match &self.listener {
            Some(listener) => listener.local_addr(),
            None => Err(io::Error::from(io::ErrorKind::NotConnected)),
        }
    }

    fn fail(&mut self) -> NetFault
        ensures { IsFault result self.old self.new }
    {
        self.faults = self.faults.saturating_add(1);
        NetFault::Failed
    }

    /// Gives the link of a stream, where there is one and its options can be set.
    fn give(&mut self, stream: io::Result<TcpStream>) -> Result<TcpLink, NetFault>
        ensures { Gives result self.old self.new }
    {
        let Some(given) = self.given.checked_add(1) else {
            return Err(self.fail());
        };
        match stream.and_then(TcpLink::new) {
            Ok(link) => {
                self.given = given;
                Ok(link)
            }
            Err(_) => Err(self.fail()),
        }
    }
}

/// The stream of the next connection. One that was aborted before it was taken is passed over.
fn next_stream(listener: &TcpListener) -> io::Result<TcpStream> {
    for stream in listener.incoming() {
        match stream {
            Err(error) if error.kind() == io::ErrorKind::ConnectionAborted => (),
            taken => return taken,
        }
    }
    Err(io::Error::from(io::ErrorKind::NotConnected))
}

impl<R: net::Net<Listener = TcpListener, Stream = TcpStream> + Drop> Net for TcpNet<R> {
    ghost use Rattle.std.specs.Prelude.{None};

    type L = TcpLink;

    ghost standing = { λ standing. standing };

    ghost back = { λ _. None };

    ghost dials = { λ _ _ _ _. Unit {0} };

    ghost opens = { λ _ _ _ _. Unit {0} };

    ghost accepts = { λ _ _ _. Unit {0} };

    ghost takes = { λ _ _ _. Unit {0} };

    fn dial(&mut self, address: &str) -> Result<TcpLink, NetFault> {
        let stream = TcpStream::connect(&self.rt, address);
        self.give(stream)
    }

    fn listen(&mut self, address: &str) -> Result<(), NetFault> {
        if self.listener.is_some() && self.address.as_str() == address {
            return Ok(());
        }
        let Ok(named) = String::from_str(self.alloc, address) else {
            return Err(NetFault::Memory);
        };
        match TcpListener::bind(&self.rt, address) {
            Ok(listener) => {
                self.listener = Some(listener);
                self.address = named;
                Ok(())
            }
            Err(_) => Err(self.fail()),
        }
    }

    fn accept(&mut self) -> Result<TcpLink, NetFault> {
        let Some(listener) = &self.listener else {
            unreachable!()
        };
        let stream = next_stream(listener);
        self.give(stream)
    }

    fn done(&mut self, link: TcpLink) {
        drop(link);
        self.given -= 1;
    }
}
