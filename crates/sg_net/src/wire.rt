// What is read and written over a connection, with no call that waits.
ghost use Rattle.std.specs.Prelude.{◌≡◌, ◌≤◌, length};

use mio::net::TcpStream;
use std::io::{self, ErrorKind, Read, Write};

// The most bytes that one call writes, so that it takes no longer than about a millisecond.
const MOST: usize = 1 << 20;

// The most reads and writes of one call.
const CALLS: u32 = 64;

/// What a write came to: so many bytes, and then the system took no more at present, or it failed.
#[derive(Drop)]
pub(crate) struct SocketWrite {
    pub(crate) count: usize,
    pub(crate) ended: io::Result<()>,
}

/// Drops what the peer sent, and fails where it has closed the connection.
pub(crate) fn look(stream: &mut TcpStream) -> io::Result<()> {
    let mut dropped = [0u8; 512];
    for _ in 0..CALLS {
        match stream.read(&mut dropped) {
            Ok(0) => return Err(io::Error::other("the peer closed the connection")),
            Ok(_) => {}
            Err(error) if error.kind() == ErrorKind::WouldBlock => return Ok(()),
            Err(error) if error.kind() == ErrorKind::Interrupted => {}
            Err(error) => return Err(error),
        }
    }
    Ok(())
}

/// Writes the bytes as far as the system takes them now, a megabyte at most.
pub(crate) fn write_now(stream: &mut TcpStream, bytes: &[u8]) -> SocketWrite
    ensures { result.count ≤ length bytes.now }
{
    let end = bytes.len().min(MOST);
    let mut count = 0;
    for _ in 0..CALLS {
        if count >= end {
            break;
        }
        match stream.write(&bytes[count..end]) {
            Ok(0) => return after(count, Err(io::Error::from(ErrorKind::WriteZero))),
            Ok(taken) => count += taken,
            Err(error) if error.kind() == ErrorKind::WouldBlock => break,
            Err(error) if error.kind() == ErrorKind::Interrupted => {}
            Err(error) => return after(count, Err(error)),
        }
    }
    after(count, Ok(()))
}

/// So many bytes, and how it ended.
pub(crate) fn after(count: usize, ended: io::Result<()>) -> SocketWrite
    ensures { result.count ≡ count }
{
    SocketWrite { count, ended }
}
