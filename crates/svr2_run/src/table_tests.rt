ghost use Rattle.std.specs.Prelude.{ℕ, ◌≡◌, IfSome, None};

use crate::{Status, run};
use enclave_host::Field;
use group_world::LocalField;
use std::alloc::Global;
use std::test::Fail;
use svr_base::{MemSink, MemSource, Memory};

/// What a command answers and writes.
#[derive(Clone, Copy)]
pub(crate) struct Row {
    words: &'static str,
    text: &'static str,
    /// The exit status.
    pub code: u8,
    pub written: &'static str,
}

pub(crate) fn command_row(
    words: &'static str,
    text: &'static str,
    code: u8,
    written: &'static str,
) -> Row {
    Row {
        words,
        text,
        code,
        written,
    }
}

pub(crate) fn outcome(alloc: Global, row: &Row) -> Result<(Status, Vec<u8>), Memory> {
    outcome_over(alloc, row, LocalField::new(alloc))
}

/// What it answers and writes over this field.
pub(crate) fn outcome_over<F: Field + Drop>(
    alloc: Global,
    row: &Row,
    field: F,
) -> Result<(Status, Vec<u8>), Memory>
    requires { IfSome (F.map field) (λ now. (id : ℕ) → now id ≡ None) }
{
    let mut words = Vec::new(alloc);
    for word in row.words.split(' ') {
        words.push(String::from_str(alloc, word)?)?;
    }
    let text = Vec::from_slice(alloc, row.text.as_bytes())?;
    let mut source = MemSource::new(text, 100, Vec::new(alloc));
    let mut sink = MemSink::new(alloc, 10_000, Vec::new(alloc))?;
    let (status, _field) = run(alloc, words.as_slice(), &mut source, &mut sink, field);
    Ok((status, Vec::from_slice(alloc, sink.taken())?))
}

#[test]
fn requests_are_answered_in_order(rt: HostRuntime) -> Result<(), Fail> {
    let rows = [
        command_row(
            "table --rows=1",
            "000000000000000000000000000000Aa,1,12360a10aaaaaaaaaaaaaaaaaaaaaaaaaaaaaaaa122011111111111111111111111111111111111111111111111111111111111111111803\n000000000000000000000000000000bb,1,12360a10aaaaaaaaaaaaaaaaaaaaaaaaaaaaaaaa122011111111111111111111111111111111111111111111111111111111111111111803\n000000000000000000000000000000aA,1,2200\n000000000000000000000000000000aa,2,\n000000000000000000000000000000aa,2,12020A05\n000000000000000000000000000000aa,2,2A110a0faaaaaaaaaaaaaaaaaaaaaaaaaaaaaa\n",
            0,
            "1,done,0a020801\n2,full,1\n3,stale,1\n4,invalid,nothing,0\n5,malformed,2\n6,invalid,data,15\nrows,1\n",
        ),
        command_row(
            "table",
            "00000000000000000000000000000001,1\n",
            3,
            "stopped,schedule,1,fields,0\n",
        ),
        command_row(
            "table --rows 20000",
            "00000000000000000000000000000001,1,2200\n00000000000000000000000000000001,1111111111111111111111111,2200",
            3,
            "1,done,1a00\nstopped,schedule,2,range,2\n",
        ),
        command_row("table --rows 05", "", 2, ""),
        command_row("table --rows 20001", "", 2, ""),
        command_row("table 5", "", 2, ""),
    ];
    for row in &rows {
        let (status, written) = outcome(rt.alloc(), row)?;
        assert_eq!(rt; status.code(), row.code);
        assert_eq!(rt; written.as_slice(), row.written.as_bytes());
    }
    Ok(())
}
