//! What `serve` listens on, and the connections that come from it: a port, or a Unix socket.
ghost use Rattle.std.specs.Io.{ReadsAtMost, WritesAtMost};

use std::fs::Permissions;
use std::io::{ErrorKind, Read, Write};
use std::net::{Shutdown, TcpListener, TcpStream};
use std::os::unix::fs::{FileTypeExt, PermissionsExt};
use std::os::unix::net::{UnixListener, UnixStream};
use std::time::Duration;
use std::{fs, io};

/// What `serve` listens on.
#[derive(Drop)]
pub enum Listener {
    Port(TcpListener),
    Socket(UnixListener),
}

/// The mode of the file of a Unix socket: nobody but its owner and its group connects.
const MODE: u32 = 0o660;

impl Listener {
    /// Listens at a port of 127.0.0.1.
    pub(crate) fn at_port(rt: &HostRuntime, port: u16) -> io::Result<Listener> {
        Ok(Listener::Port(TcpListener::bind(rt, ("127.0.0.1", port))?))
    }

    /// Listens on a Unix socket at a path. One that an earlier run left there, at which nobody listens, is removed.
    pub(crate) fn at_path(rt: &HostRuntime, path: &str) -> io::Result<Listener> {
        if is_left(rt, path) {
            fs::remove_file(rt, path)?;
        }
        let listener = UnixListener::bind(rt, path)?;
        fs::set_permissions(rt, path, Permissions::from_mode(MODE))?;
        Ok(Listener::Socket(listener))
    }

    /// The next connection.
    pub(crate) fn accept(&self) -> io::Result<Stream> {
        match self {
            Listener::Port(listener) => Ok(Stream::Port(listener.accept()?.0)),
            Listener::Socket(listener) => Ok(Stream::Socket(listener.accept()?.0)),
        }
    }
}

/// Whether a path has a Unix socket at which nobody listens.
fn is_left(rt: &HostRuntime, path: &str) -> bool {
    let Ok(found) = fs::symlink_metadata(rt, path) else {
        return false;
    };
    if !found.file_type().is_socket() {
        return false;
    }
    match UnixStream::connect(rt, path) {
        Ok(_stream) => false,
        Err(error) => error.kind() == ErrorKind::ConnectionRefused,
    }
}

/// A connection.
#[derive(Drop)]
pub(crate) enum Stream {
    Port(TcpStream),
    Socket(UnixStream),
}

/// Does the same with the stream of either kind.
macro_rules! either {
    ($stream:expr, $name:ident => $does:expr) => {
        match $stream {
            Stream::Port($name) => $does,
            Stream::Socket($name) => $does,
        }
    };
}

impl Stream {
    /// One read, within a time.
    pub(crate) fn read(&self, buf: &mut [u8], time: Duration) -> io::Result<usize>
        ensures { ReadsAtMost result buf.new }
    {
        either!(self, stream => {
            stream.set_read_timeout(Some(time))?;
            let mut stream = stream;
            stream.read(buf)
        })
    }

    /// One write, within a time.
    pub(crate) fn write(&self, buf: &[u8], time: Duration) -> io::Result<usize>
        ensures { WritesAtMost result buf.now }
    {
        either!(self, stream => {
            stream.set_write_timeout(Some(time))?;
            let mut stream = stream;
            stream.write(buf)
        })
    }

    /// Whether the peer takes nothing more, so that a reply reaches nobody: a write of no bytes fails. It does where
    /// the peer has closed a Unix socket, or has broken off at a port. At a port a peer that has closed looks like one
    /// that has only finished sending.
    pub(crate) fn is_abandoned(&self) -> bool {
        either!(self, stream => {
            let mut stream = stream;
            stream.write(&[]).is_err()
        })
    }

    /// Says that nothing more is written.
    pub(crate) fn end(&self) -> io::Result<()> {
        either!(self, stream => stream.shutdown(Shutdown::Write))
    }
}
