//! The program: the top call over standard input and output, or over two connections, and over children that serve the
//! replicas of a group.
#![tactic(auto)]

ghost use Rattle.std.specs.Prelude.{ℕ, ◌≡◌, IfSome, None};

use enclave_host::Field;
use replica_server::LoopField;
use std::alloc::Global;
use std::env::{self, Env};
use std::io::{self, ErrorKind};
use std::net::{IpAddr, Net, OpenStream, SocketAddr};
use std::process::ExitCode;
use svr_base::{MemSink, MemSource, Memory, StdSink, StdSource};
use svr2_run::{Edge, Status, edge_of, run};

/// The words of the command line, without the program's own name. Words that are no text are no command.
fn words(rt: &(impl Env + AllocGlobal)) -> Result<Vec<String>, Status> {
    let mut words = Vec::new(rt.alloc());
    match env::args(rt) {
        Ok(args) => {
            for word in args.skip(1) {
                words.push(word).map_err(|_| Status::Memory)?;
            }
            Ok(words)
        }
        Err(error) if error.kind() == ErrorKind::OutOfMemory => Err(Status::Memory),
        Err(_) => Err(Status::Usage),
    }
}

/// What is said of a status on standard error.
fn name(status: Status) -> &'static str {
    match status {
        Status::Done => "done",
        Status::Memory => "memory",
        Status::Usage => "usage",
        Status::Schedule => "schedule",
        Status::ReadFault => "read fault",
        Status::WriteFault => "write fault",
        Status::FieldFault => "field fault",
        Status::Limit => "limit",
        Status::Frame => "frame",
        Status::Refused => "refused",
    }
}

/// Two connections to this port of the loopback address: the first is read, and the second is written.
fn connect<R: Net>(rt: &R, port: u16) -> io::Result<(R::Stream, R::Stream)> {
    let host = SocketAddr::new(IpAddr::from([127, 0, 0, 1]), port);
    let from = rt.connect(host)?;
    let to = rt.connect(host)?;
    // The host waits for each batch frame: none may wait for more bytes.
    to.set_nodelay(true)?;
    Ok((from, to))
}

/// Runs the words without a connection: over a source whose first read fails.
fn run_unconnected<F: Field + Drop>(
    alloc: Global,
    words: &[String],
    field: F,
) -> Result<Status, Memory>
    requires { IfSome (F.map field) (λ now. (id : ℕ) → now id ≡ None) }
{
    let mut failing = Vec::new(alloc);
    failing.push(1)?;
    let mut source = MemSource::new(Vec::new(alloc), 1, failing);
    let mut sink = MemSink::new(alloc, 0, Vec::new(alloc))?;
    let (status, _field) = run(alloc, words, &mut source, &mut sink, field);
    Ok(status)
}

/// Runs the words over connections to this port.
fn run_connected<F: Field + Drop>(
    rt: &(impl Net + AllocGlobal),
    port: u16,
    words: &[String],
    field: F,
) -> Result<Status, Memory>
    requires { IfSome (F.map field) (λ now. (id : ℕ) → now id ≡ None) }
{
    match connect(rt, port) {
        Ok((from, to)) => {
            let mut source = StdSource::new(from);
            let mut sink = StdSink::new(to);
            let (status, _field) = run(rt.alloc(), words, &mut source, &mut sink, field);
            Ok(status)
        }
        Err(_) => run_unconnected(rt.alloc(), words, field),
    }
}

/// Runs the words over what they ask for: its streams, and a field whose children run its program. They end with it.
fn run_words(rt: &HostRuntime, words: &[String]) -> Result<Status, Memory> {
    let edge = edge_of(rt.alloc(), words)?;
    let program = match &edge {
        Edge::Program(path) => path.as_str(),
        Edge::Standard | Edge::Connect(_) => "",
    };
    let field = LoopField::new(rt, rt.alloc(), program)?;
    match edge {
        Edge::Connect(port) => run_connected(rt, port, words, field),
        Edge::Standard | Edge::Program(_) => {
            let mut source = StdSource::new(rt.stdin());
            let mut sink = StdSink::new(rt.stdout());
            let (status, _field) = run(rt.alloc(), words, &mut source, &mut sink, field);
            Ok(status)
        }
    }
}

fn main(rt: HostRuntime) -> ExitCode {
    let status = match words(&rt) {
        Ok(words) => run_words(&rt, words.as_slice()).unwrap_or(Status::Memory),
        Err(status) => status,
    };
    if status != Status::Done {
        let _ = eprintln!(rt; "svr2: {}", name(status));
    }
    ExitCode::from(status.code())
}
