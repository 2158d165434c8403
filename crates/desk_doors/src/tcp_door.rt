ghost use Rattle.std.specs.Prelude.{◌≡◌, false, None};

use crate::doors::Door;
use crate::tcp_conn::TcpConn;
use panel_edges::Failed;
use std::io;
use std::net::{IpAddr, Ipv4Addr, Net, OpenListener, SocketAddr};
use std::time::Clock;

/// A door at a port of the loopback address, which tells nothing of its connections.
#[derive(Drop)]
pub struct TcpDoor<R: Net + Clock + Copy + Drop> {
    rt: R,
    listener: Option<R::Listener>,
    is_out: bool,
    faults: u64,
}

impl<R: Net + Clock + Copy + Drop> TcpDoor<R> {
    pub fn new(rt: R) -> TcpDoor<R>
        ensures { (result.faults ≡ 0) × (result.is_out ≡ false) }
    {
        TcpDoor {
            rt,
            listener: None,
            is_out: false,
            faults: 0,
        }
    }
}

impl<R: Net + Clock + Copy + Drop> Door for TcpDoor<R> {
    type Conn = TcpConn<R>;

    ghost waiting = { λ d. None };

    ghost handed = { λ d. None };

    ghost is_out = { λ d. d.is_out };

    ghost faults = { λ d. d.faults };

    fn start(&mut self, port: u16) -> Result<(), Failed> {
        match self
            .rt
            .bind(SocketAddr::new(IpAddr::V4(Ipv4Addr::LOCALHOST), port))
        {
            Ok(listener) => {
                self.listener = Some(listener);
                Ok(())
            }
            Err(_) => {
                self.faults = self.faults.saturating_add(1);
                Err(Failed)
            }
        }
    }

    fn next(&mut self) -> Result<TcpConn<R>, Failed> {
        match accepted(&self.listener) {
            Ok(stream) => {
                self.is_out = true;
                Ok(TcpConn::new(self.rt, stream))
            }
            Err(_) => {
                self.faults = self.faults.saturating_add(1);
                Err(Failed)
            }
        }
    }

    fn finish(&mut self, conn: TcpConn<R>) {
        let mut conn = conn;
        conn.drain();
        self.is_out = false;
    }
}

// The next connection of a door that was started.
fn accepted<L: OpenListener>(listener: &Option<L>) -> io::Result<L::Stream> {
    match listener {
        Some(listener) => Ok(listener.accept()?.0),
        None => Err(io::Error::from(io::ErrorKind::NotConnected)),
    }
}
