//! The words of the command line.
ghost use Rattle.std.specs.Prelude.{◌≡◌, ◌≢◌, ◌≤◌, None, IfOk, OnOk, IfSome, map, option_map, string_bytes};
ghost use Rattle.values.specs.declared.limits.TheConstants.{MOST_ROWS};
ghost use Rattle.svr2_run.specs.Words as spec;

use clap::Arg;
use clap::error::ErrorKind;
use schedule_text::number_of;
use std::alloc::Global;
use svr_base::{MOST_ROWS, Memory};

/// How many rows the table of `table` may hold where its words do not say.
const USUAL_ROWS: u32 = 10_000;

/// The most clients of a drill.
const MOST_CLIENTS: u64 = 2_000;

/// What is played from the source.
#[derive(Clone, Copy, Debug, PartialEq, Eq)]
pub enum Play {
    /// A schedule.
    Replay,
    /// A schedule of which each accepted want is carried to its report.
    Drive,
    /// Requests to one table of this limit.
    Table { limit: u32 },
}

/// A command, with what its words say.
// No `Debug`: a key is never printed.
#[derive(Clone, Copy)]
pub enum Command {
    /// Plays the records of the source.
    Play(Play),
    /// Plays a schedule over the field, whatever the path of its program.
    Group,
    /// Serves one enclave over the frames of the source.
    Serve,
    /// Serves one enclave over frames that are tagged under this key.
    Tagged { key: [u8; 32] },
    /// Audits the trace of the source.
    Audit,
    /// Plays the drill of this seed and number of clients.
    Drill { seed: u64, clients: u32 },
}

/// Where `serve` reads its frames, and writes what it answers.
#[derive(Clone, Copy, Debug, PartialEq, Eq)]
pub enum Streams {
    /// On standard input and output.
    Standard,
    /// On two connections to this port.
    Connected(u16),
}

/// The limit of rows that an option's value says, or the usual one.
fn limit_of(rows: Option<&str>) -> Option<u32>
    ensures value { result ≡ spec.limit_of (option_map (λ text. text.now) rows.entry) }
    ensures least { IfSome result (λ limit. 1 ≤ limit) }
    ensures most { IfSome result (λ limit. limit ≤ MOST_ROWS) }
{
    let Some(text) = rows else {
        return Some(USUAL_ROWS);
    };
    match number_of(text.as_bytes(), 0, 1, u64::from(MOST_ROWS)) {
        Ok(limit) => Some(limit as u32),
        Err(_) => None,
    }
}

/// What a parse that failed says of its words: they are no command, where it was not for want of memory.
fn refusal<T>(kind: ErrorKind) -> Result<Option<T>, Memory>
    ensures none { IfOk result (λ value. value ≡ None) }
    ensures refused { OnOk result (kind ≢ ErrorKind.OutOfMemory) }
{
    if kind == ErrorKind::OutOfMemory {
        Err(Memory)
    } else {
        Ok(None)
    }
}

/// The words of a command that has no option.
fn read_plain(
    alloc: Global,
    name: &str,
    command: Command,
    words: &[String],
) -> Result<Option<Command>, Memory>
    ensures { IfOk result (λ read. read ≡ spec.plain_of name.now command (map string_bytes words.now)) }
{
    let plain = clap::Command::new(alloc, name);
    match plain.try_get_matches_from(words) {
        Ok(_matches) => Ok(Some(command)),
        Err(error) => refusal(error.kind()),
    }
}

/// The words of `table`: it has the option `rows`.
fn read_table(alloc: Global, words: &[String]) -> Result<Option<Command>, Memory>
    ensures { IfOk result (λ command. command ≡ spec.table_of (map string_bytes words.now)) }
{
    let rows = Arg::new(alloc, "rows").long("rows");
    let table = clap::Command::new(alloc, "table").arg(rows)?;
    match table.try_get_matches_from(words) {
        Ok(matches) => {
            let Some(limit) = limit_of(matches.get_str("rows")) else {
                return Ok(None);
            };
            Ok(Some(Command::Play(Play::Table { limit })))
        }
        Err(error) => refusal(error.kind()),
    }
}

/// The streams that an option's value says: connections to a port, or the standard ones.
fn streams_of(port: Option<&str>) -> Option<Streams>
    ensures { result ≡ spec.streams_of (option_map (λ text. text.now) port.entry) }
{
    let Some(text) = port else {
        return Some(Streams::Standard);
    };
    match number_of(text.as_bytes(), 0, 1, u64::from(u16::MAX)) {
        Ok(port) => Some(Streams::Connected(port as u16)),
        Err(_) => None,
    }
}

/// The words of `serve`: it has the option `connect`.
pub fn read_serve(alloc: Global, words: &[String]) -> Result<Option<Streams>, Memory>
    ensures { IfOk result (λ streams. streams ≡ spec.served_by (map string_bytes words.now)) }
{
    let connect = Arg::new(alloc, "connect").long("connect");
    let serve = clap::Command::new(alloc, "serve").arg(connect)?;
    match serve.try_get_matches_from(words) {
        Ok(matches) => Ok(streams_of(matches.get_str("connect"))),
        Err(error) => refusal(error.kind()),
    }
}

/// The words of `group`: it needs the option `program`, a path.
pub fn read_group(alloc: Global, words: &[String]) -> Result<Option<String>, Memory>
    ensures { IfOk result (λ path. option_map string_bytes path ≡ spec.grouped_by (map string_bytes words.now)) }
{
    let program = Arg::new(alloc, "program").long("program");
    let group = clap::Command::new(alloc, "group").arg(program)?;
    match group.try_get_matches_from(words) {
        Ok(matches) => {
            let Some(path) = matches.get_str("program") else {
                return Ok(None);
            };
            Ok(Some(String::from_str(alloc, path)?))
        }
        Err(error) => refusal(error.kind()),
    }
}

/// The key that an option's value says: 64 hexadecimal digits, in either case.
fn key_of(key: Option<&str>) -> Option<[u8; 32]>
    ensures { result ≡ spec.key_of (option_map (λ text. text.now) key.entry) }
{
    let mut bytes = [0; 32];
    match hex::decode_to_slice(key?.as_bytes(), &mut bytes) {
        Ok(()) => Some(bytes),
        Err(_) => None,
    }
}

/// The words of `tagged`: it needs the option `key`.
fn read_tagged(alloc: Global, words: &[String]) -> Result<Option<Command>, Memory>
    ensures { IfOk result (λ command. command ≡ spec.tagged_of (map string_bytes words.now)) }
{
    let key = Arg::new(alloc, "key").long("key");
    let tagged = clap::Command::new(alloc, "tagged").arg(key)?;
    match tagged.try_get_matches_from(words) {
        Ok(matches) => {
            let Some(key) = key_of(matches.get_str("key")) else {
                return Ok(None);
            };
            Ok(Some(Command::Tagged { key }))
        }
        Err(error) => refusal(error.kind()),
    }
}

/// The decimal number in this range that an option's value says, where it has one.
fn number_within(text: Option<&str>, least: u64, most: u64) -> Option<u64>
    ensures value { result ≡ spec.number_within least most (option_map (λ text. text.now) text.entry) }
    ensures least { IfSome result (λ number. least ≤ number) }
    ensures most { IfSome result (λ number. number ≤ most) }
{
    match number_of(text?.as_bytes(), 0, least, most) {
        Ok(number) => Some(number),
        Err(_) => None,
    }
}

/// The drill that the values of its two options say.
fn drill_of(seed: Option<&str>, clients: Option<&str>) -> Option<Command>
    ensures said { result ≡ spec.drill_by (option_map (λ text. text.now) seed.entry) (option_map (λ text. text.now) clients.entry) }
    ensures limit { IfSome result spec.HasLimits }
{
    let seed = number_within(seed, 0, u64::MAX)?;
    let clients = number_within(clients, 1, MOST_CLIENTS)?;
    Some(Command::Drill {
        seed,
        clients: clients as u32,
    })
}

/// The words of `drill`: it needs the options `seed` and `clients`.
fn read_drill(alloc: Global, words: &[String]) -> Result<Option<Command>, Memory>
    ensures command { IfOk result (λ command. command ≡ spec.drill_of (map string_bytes words.now)) }
    ensures limit { IfOk result (λ command. IfSome command spec.HasLimits) }
{
    let seed = Arg::new(alloc, "seed").long("seed");
    let clients = Arg::new(alloc, "clients").long("clients");
    let drill = clap::Command::new(alloc, "drill").arg(seed)?.arg(clients)?;
    match drill.try_get_matches_from(words) {
        Ok(matches) => Ok(drill_of(matches.get_str("seed"), matches.get_str("clients"))),
        Err(error) => refusal(error.kind()),
    }
}

/// The command that the words mean: the first is its name, and those after it are its options.
pub fn read_words(alloc: Global, words: &[String]) -> Result<Option<Command>, Memory>
    ensures command { IfOk result (λ command. command ≡ spec.command_of (map string_bytes words.now)) }
    ensures limit { IfOk result (λ command. IfSome command spec.HasLimits) }
{
    let Some(name) = words.first() else {
        return Ok(None);
    };
    match name.as_str() {
        "replay" => read_plain(alloc, name.as_str(), Command::Play(Play::Replay), words),
        "drive" => read_plain(alloc, name.as_str(), Command::Play(Play::Drive), words),
        "table" => read_table(alloc, words),
        "serve" => {
            let streams = read_serve(alloc, words)?;
            Ok(streams.map(|_| Command::Serve))
        }
        "tagged" => read_tagged(alloc, words),
        "audit" => read_plain(alloc, name.as_str(), Command::Audit, words),
        "group" => {
            let program = read_group(alloc, words)?;
            Ok(program.map(|_| Command::Group))
        }
        "drill" => read_drill(alloc, words),
        _ => Ok(None),
    }
}
