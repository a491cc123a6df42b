//! Where children connect.
use crate::child::Started;
use std::io::{self, ErrorKind, Read};
use std::net::{IpAddr, Net, OpenListener, SocketAddr};
use std::os::unix::net::UnixStream;
use std::process::OpenProcess;
use std::time::Duration;

/// How many milliseconds to wait before a child is looked at again, and how often: about a minute in all.
const TURN: u64 = 4;

const TURNS: u32 = 15_000;

/// A listener on the loopback address.
#[derive(Drop)]
pub(crate) struct Door<L> {
    listener: L,
    port: u16,
    // Nothing is ever written to the other end: a read here waits for one turn.
    turn: UnixStream,
    silent: UnixStream,
}

impl<L: OpenListener> Door<L> {
    pub(crate) fn open<R: Net<Listener = L>>(rt: &R) -> io::Result<Door<L>>
    where
        L: Drop,
    {
        let listener = rt.bind(SocketAddr::new(IpAddr::from([127, 0, 0, 1]), 0))?;
        listener.set_nonblocking(true)?;
        let port = listener.local_addr()?.port();
        let (turn, silent) = UnixStream::pair(rt)?;
        turn.set_read_timeout(Some(Duration::from_millis(TURN)))?;
        Ok(Door {
            listener,
            port,
            turn,
            silent,
        })
    }

    /// The port at which children connect.
    pub(crate) fn port(&self) -> u16 {
        self.port
    }

    /// The next connection. A child that ends before it makes one, or makes none in time, has failed.
    pub(crate) fn accept<P: OpenProcess>(
        &mut self,
        started: &mut Started<P>,
    ) -> io::Result<L::Stream> {
        for _ in 0..TURNS {
            match self.listener.accept() {
                Ok((stream, _)) => return Ok(stream),
                Err(error) if error.kind() == ErrorKind::WouldBlock => {}
                Err(error) => return Err(error),
            }
            if started.process.try_wait()?.is_some() {
                return Err(io::Error::from(ErrorKind::BrokenPipe));
            }
            self.pause();
        }
        Err(io::Error::from(ErrorKind::TimedOut))
    }

    /// Waits until a child has ended, whose connections are closed. One that ends otherwise than well, or not in time, has
    /// failed.
    pub(crate) fn wait<P: OpenProcess + Drop>(
        &mut self,
        mut started: Started<P>,
    ) -> io::Result<()> {
        for _ in 0..TURNS {
            if let Some(status) = started.process.try_wait()? {
                return if status.success() {
                    Ok(())
                } else {
                    Err(io::Error::from(ErrorKind::BrokenPipe))
                };
            }
            self.pause();
        }
        Err(io::Error::from(ErrorKind::TimedOut))
    }

    fn pause(&mut self) {
        let _ = self.turn.read(&mut [0; 1]);
    }
}
