ghost use Rattle.std.specs.Prelude.{◌≡◌, ◌≤◌, None, length, IfOk};
ghost use Rattle.std.specs.Io.{ReadsAtMost};

use panel_edges::{Failed, Sink, Source, Stream};
use std::io;
use std::io::{Read, Write};
use std::net::{Net, OpenStream, Shutdown};
use std::time::{Clock, Duration, Instant};

/// How long one connection may take in all, in seconds.
pub const CONNECTION_SECONDS: u64 = 10;

// How much longer than that a read may wait, in nanoseconds, so that the socket isn't told anew before each.
const SPARE_NANOSECONDS: u64 = 10_000_000;

/// A connection from a socket, which tells nothing of its bytes. All its reads and writes together have
/// [`CONNECTION_SECONDS`], and the last read a hundredth of a second more; each that comes or ends later is a fault.
#[derive(Drop)]
pub struct TcpConn<R: Net + Clock + Copy + Drop> {
    stream: R::Stream,
    clock: R,
    // None where the clock couldn't be read as the connection came: each call is a fault then.
    deadline: Option<Instant>,
    // How long the socket lets a read wait, where it was told.
    read_wait: Option<Duration>,
    read_faults: u64,
    write_faults: u64,
}

impl<R: Net + Clock + Copy + Drop> TcpConn<R> {
    pub(crate) fn new(clock: R, stream: R::Stream) -> TcpConn<R>
        ensures { (result.read_faults ≡ 0) × (result.write_faults ≡ 0) }
    {
        let deadline = match Instant::now(&clock) {
            Ok(start) => start.checked_add(Duration::from_secs(CONNECTION_SECONDS)),
            Err(_) => None,
        };
        TcpConn {
            stream,
            clock,
            deadline,
            read_wait: None,
            read_faults: 0,
            write_faults: 0,
        }
    }

    /// Says that no more is written, and takes what still comes, so that no reset takes the answer away from a peer
    /// that still sends.
    pub(crate) fn drain(&mut self) {
        if self.stream.shutdown(Shutdown::Write).is_err() {
            return;
        }
        let mut piece = [0; 4096];
        for _ in 0..u64::MAX {
            match self.read_in_time(&mut piece) {
                Ok(count) if count > 0 => {}
                _ => return,
            }
        }
    }

    // What is left of the connection's time, where any is.
    fn time_left(&self) -> io::Result<Duration> {
        let late = io::Error::from(io::ErrorKind::TimedOut);
        let Some(deadline) = self.deadline else {
            return Err(late);
        };
        let left = deadline.saturating_duration_since(Instant::now(&self.clock)?);
        if left.is_zero() { Err(late) } else { Ok(left) }
    }

    fn read_in_time(&mut self, into: &mut [u8]) -> io::Result<usize>
        ensures bound { ReadsAtMost result into.new }
        ensures faults { (self.new.read_faults ≡ self.old.read_faults)
            × (self.new.write_faults ≡ self.old.write_faults) }
    {
        let left = self.time_left()?;
        if !self.waits_about(left) {
            self.stream.set_read_timeout(Some(left))?;
            self.read_wait = Some(left);
        }
        self.stream.read(into)
    }

    // Whether the socket lets a read wait so long, or so little longer that it needn't be told.
    fn waits_about(&self, left: Duration) -> bool {
        match self.read_wait {
            Some(wait) => wait <= left.saturating_add(Duration::from_nanos(SPARE_NANOSECONDS)),
            None => false,
        }
    }

    fn write_in_time(&mut self, piece: &[u8]) -> io::Result<usize>
        ensures bound { IfOk result (λ n. n ≤ length piece.now) }
        ensures faults { (self.new.read_faults ≡ self.old.read_faults)
            × (self.new.write_faults ≡ self.old.write_faults) }
    {
        let left = self.time_left()?;
        self.stream.set_write_timeout(Some(left))?;
        self.stream.write(piece)
    }
}

impl<R: Net + Clock + Copy + Drop> Stream for TcpConn<R> {
    ghost left = { λ c. None };

    ghost written = { λ c. None };

    ghost read_faults = { λ c. c.read_faults };

    ghost write_faults = { λ c. c.write_faults };
}

impl<R: Net + Clock + Copy + Drop> Source for TcpConn<R> {
    fn read(&mut self, into: &mut [u8]) -> Result<usize, Failed> {
        match self.read_in_time(into) {
            Ok(count) => Ok(count),
            Err(_) => {
                self.read_faults = self.read_faults.saturating_add(1);
                Err(Failed)
            }
        }
    }
}

impl<R: Net + Clock + Copy + Drop> Sink for TcpConn<R> {
    fn write(&mut self, piece: &[u8]) -> Result<usize, Failed> {
        match self.write_in_time(piece) {
            Ok(count) if count > 0 => Ok(count),
            _ => {
                self.write_faults = self.write_faults.saturating_add(1);
                Err(Failed)
            }
        }
    }
}
