//! The children that serve enclaves.
use crate::child::{EnclaveChild, Started};
use crate::door::Door;
use std::alloc::Global;
use std::collections::BTreeMap;
use std::io::{self, ErrorKind};
use std::net::Net;
use std::process::{Command, Processes, Stdio};
use values::ReplicaId;

/// Children of this process, by the ids of the replicas that their enclaves are. Each is the program at a path, with the words
/// `serve --connect PORT`.
///
/// A child that fails once is let go: what it sent later would be taken for another answer.
#[derive(Drop)]
pub(crate) struct Children<R: Net + Processes> {
    pub(crate) rt: R,
    pub(crate) alloc: Global,
    pub(crate) program: String,
    /// Opened by the first start, and away while a child is waited for.
    pub(crate) door: Option<Door<R::Listener>>,
    pub(crate) running: BTreeMap<ReplicaId, EnclaveChild<R::Stream, R::Started>>,
    pub(crate) frame: Vec<u8>,
}

impl<R: Net + Processes + Drop> Children<R> {
    /// Starts a child, and hands it the content that starts its enclave. An enclave that only starts leaves an empty batch.
    pub(crate) fn start(&mut self, id: ReplicaId, hello: &[u8]) -> io::Result<()> {
        if self.running.contains_key(&id) {
            return Err(io::Error::from(ErrorKind::AlreadyExists));
        }
        let mut door = self.door()?;
        let mut child = self.connected(&mut door)?;
        self.door = Some(door);
        let mut batch = Vec::new(self.alloc);
        child.ask(hello, &mut self.frame, &mut batch)?;
        if !batch.is_empty() {
            return Err(io::Error::from(ErrorKind::InvalidData));
        }
        self.running.insert(id, child)?;
        Ok(())
    }

    /// Hands the child of this id a content, and leaves in `out` the batch that comes back.
    pub(crate) fn call(
        &mut self,
        id: ReplicaId,
        input: &[u8],
        out: &mut Vec<u8>,
    ) -> io::Result<()> {
        let Some(child) = self.running.get_mut(&id) else {
            return Err(io::Error::from(ErrorKind::NotFound));
        };
        let answered = child.ask(input, &mut self.frame, out);
        if answered.is_err() {
            self.running.remove(&id);
        }
        answered
    }

    /// Closes the connections of the child of this id, and waits until it has ended.
    pub(crate) fn stop(&mut self, id: ReplicaId) -> io::Result<()> {
        let Some(child) = self.running.remove(&id) else {
            return Err(io::Error::from(ErrorKind::NotFound));
        };
        let mut door = self.door()?;
        door.wait(child.close())?;
        self.door = Some(door);
        Ok(())
    }

    /// Where children connect: one door for all, but where a child failed at it. That one may still come, and would be taken
    /// for another.
    fn door(&mut self) -> io::Result<Door<R::Listener>> {
        match self.door.take() {
            Some(door) => Ok(door),
            None => Door::open(&self.rt),
        }
    }

    /// Starts a child and waits for its connections, the first for what it reads and the second for what it writes.
    fn connected(
        &self,
        door: &mut Door<R::Listener>,
    ) -> io::Result<EnclaveChild<R::Stream, R::Started>> {
        let port = format!(in self.alloc; "{}", door.port())?;
        let mut command = Command::new(self.alloc, self.program.as_str())?;
        command.arg("serve")?.arg("--connect")?.arg(port.as_str())?;
        // The streams of this process are not its own: the schedule comes from one, and the trace goes to another.
        command
            .stdin(Stdio::null())
            .stdout(Stdio::null())
            .stderr(Stdio::null());
        let mut started = Started {
            process: command.spawn(&self.rt)?,
        };
        let to = door.accept(&mut started)?;
        let from = door.accept(&mut started)?;
        EnclaveChild::new(to, from, started)
    }
}
