//! What the program must make for its words.
ghost use Rattle.std.specs.Prelude.{map, string_bytes, IfOk};
ghost use Rattle.svr2_run.specs.Edges.{IsEdgeOf};

use crate::words::{Streams, read_group, read_serve};
use std::alloc::Global;
use svr_base::Memory;

/// Where a run reads and writes, and who serves its replicas.
#[derive(Debug, Drop)]
pub enum Edge {
    /// It reads standard input and writes standard output.
    Standard,
    /// It reads the first of two connections to this port of the loopback address, and writes to the second.
    Connect(u16),
    /// As `Standard`, and children that run the program at this path serve its replicas.
    Program(String),
}

/// What the words ask for: `Connect` exactly where they are those of `serve --connect PORT`, and `Program` exactly where they are
/// those of `group --program PATH`. Words that are no command ask for nothing but the standard streams.
pub fn edge_of(alloc: Global, words: &[String]) -> Result<Edge, Memory>
    ensures { IfOk result (IsEdgeOf (map string_bytes words.now)) }
{
    let Some(name) = words.first() else {
        return Ok(Edge::Standard);
    };
    match name.as_str() {
        "serve" => match read_serve(alloc, words)? {
            Some(Streams::Connected(port)) => Ok(Edge::Connect(port)),
            Some(Streams::Standard) | None => Ok(Edge::Standard),
        },
        "group" => match read_group(alloc, words)? {
            Some(path) => Ok(Edge::Program(path)),
            None => Ok(Edge::Standard),
        },
        _ => Ok(Edge::Standard),
    }
}
