//! What comes over a real connection of the loopback address, and what its peer is answered.

use crate::requests::say_taken;
use anyhow::{Context, Result, bail};
use desk_doors::{Door, TcpDoor};
use desk_requests::{RequestRoom, Routes, read_request};
use panel_edges::write_all;
use std::io::{Read, Write};
use std::net::{IpAddr, Ipv4Addr, Shutdown, SocketAddr, TcpStream};
use std::{fs, process};
use trial_cases::Lines;

/// Connects to a door, writes the bytes of a file and ends; only then is the connection taken, read and answered, all
/// in one thread. The port is one that no other trial of this machine takes at the same time.
pub(crate) fn serve(rt: &HostRuntime, name: &str) -> Result<String> {
    let alloc = rt.alloc();
    let bytes = fs::read(rt, name).context(format_args!("reading {name}"))?;
    let (Ok(mut room), Ok(routes)) = (RequestRoom::new(alloc), Routes::new(alloc)) else {
        bail!("no memory");
    };
    let port = (20_000 + process::id(rt.process()) % 12_000) as u16;
    let mut door = TcpDoor::new(*rt);
    if door.start(port).is_err() {
        bail!("no door");
    }
    let mut peer = TcpStream::connect(rt, SocketAddr::new(IpAddr::V4(Ipv4Addr::LOCALHOST), port))?;
    peer.write_all(&bytes)?;
    peer.shutdown(Shutdown::Write)?;
    let Ok(mut conn) = door.next() else {
        bail!("no connection");
    };
    let taken = read_request(&mut conn, &mut room, &routes, 1);
    if write_all(&mut conn, b"taken\n").is_err() {
        bail!("no answer");
    }
    door.finish(conn);
    let mut answer = Vec::new(alloc);
    peer.read_to_end(&mut answer)?;
    let mut lines = Lines::new(alloc);
    say_taken(&mut lines, &taken);
    lines.count("    answered with ", answer.len() as u64);
    lines.say(" bytes\n");
    lines.done()
}
