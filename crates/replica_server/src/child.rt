//! A child that serves one enclave.
use std::io::{self, ErrorKind, Read, Write};
use std::net::{Net, OpenStream};
use std::process::{Child, OpenProcess};
use std::time::Duration;
use values::{MAX_BATCH, MAX_CONTENT};

/// For how many seconds a child may leave a frame unread or unanswered.
const PATIENCE: u64 = 60;

/// A child of this process. Where it is let go it is killed, unless it was waited for.
pub(crate) struct Started<P: OpenProcess> {
    pub(crate) process: Child<P>,
}

impl<P: OpenProcess + Drop> Drop for Started<P> {
    fn drop(self) {
        let Started { mut process } = self;
        // One that can't be killed is not waited for: it may never end.
        if process.kill().is_ok() {
            let _ = process.wait();
        }
    }
}

/// A child with its two connections. Where it is let go, both are closed before it is killed.
#[derive(Drop)]
pub(crate) struct EnclaveChild<S, P: OpenProcess> {
    to: S,
    from: S,
    started: Started<P>,
}

/// A connection to a child, on which nothing waits for ever.
fn prepared<S: OpenStream>(stream: S) -> io::Result<S>
where
    S: Drop,
{
    // Frames are small, and each is answered before the next: none may wait for more bytes.
    let patience = Some(Duration::from_secs(PATIENCE));
    stream.set_nodelay(true)?;
    stream.set_read_timeout(patience)?;
    stream.set_write_timeout(patience)?;
    Ok(stream)
}

impl<S: Read + Write + OpenStream + Drop, P: OpenProcess + Drop> EnclaveChild<S, P> {
    /// A child that reads from the first of these connections and writes to the second.
    pub(crate) fn new(to: S, from: S, started: Started<P>) -> io::Result<EnclaveChild<S, P>> {
        Ok(EnclaveChild {
            to: prepared(to)?,
            from: prepared(from)?,
            started,
        })
    }

    /// Writes a frame of this content, and reads the content of its batch frame into `out`. The frame is put together in
    /// `frame`, so that it goes out at once.
    pub(crate) fn ask(
        &mut self,
        content: &[u8],
        frame: &mut Vec<u8>,
        out: &mut Vec<u8>,
    ) -> io::Result<()> {
        frame.clear();
        frame.extend_from_slice(&length_of(content)?.to_be_bytes())?;
        frame.extend_from_slice(content)?;
        self.to.write_all(frame.as_slice())?;
        self.read_batch(out)
    }

    /// Reads the content of a batch frame.
    fn read_batch(&mut self, out: &mut Vec<u8>) -> io::Result<()> {
        out.clear();
        let mut head = [0; 4];
        self.from.read_exact(&mut head)?;
        let length = u32::from_be_bytes(head);
        if length > MAX_BATCH {
            return Err(io::Error::from(ErrorKind::InvalidData));
        }
        out.resize(length as usize, 0)?;
        self.from.read_exact(out.as_mut_slice())
    }

    /// Closes both connections.
    pub(crate) fn close(self) -> Started<P> {
        let EnclaveChild { to, from, started } = self;
        drop(to);
        drop(from);
        started
    }
}

/// The length of a frame's content.
fn length_of(content: &[u8]) -> io::Result<u32> {
    match u32::try_from(content.len()) {
        Ok(length) if 1 <= length && length <= MAX_CONTENT => Ok(length),
        _ => Err(io::Error::from(ErrorKind::InvalidInput)),
    }
}
