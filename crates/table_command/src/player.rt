//! The player of a table's records.
ghost use Rattle.std.specs.Prelude.{◌≡◌, ◌≤◌, ◌<◌, ◌+◌, ◌++◌, ◌^◌, ◌∷◌, decimal, ⊤, IfOk, OnErr, OnOk};
ghost use Rattle.record_stream.specs.Alone.{none_asked, none_asked_history, one_way};
ghost use Rattle.record_cutting.specs.Lines.{record_of};
ghost use Rattle.values.specs.declared.limits.TheConstants.{MOST_ROWS};
ghost use Rattle.record_rules.specs.Table.{empty_table};
ghost use Rattle.schedule_model.specs.Lines.{line_text, stopped_at_limit, stopped_at_record};
ghost use Rattle.schedule_model.specs.Quantities.{Events};
ghost use Rattle.schedule_text.specs.Joined.{after_commas};
ghost use Rattle.schedule_text.specs.Read.{Reads};
ghost use Rattle.table_model.specs.TableText.{Applied, row_line, rows_line, table_record};
ghost use Rattle.table_command.specs.Course.{after_ask, after_record, course_from, outcome};
ghost use Rattle.table_command.specs.Openings.{nothing_from, spent_from, unstopped_from};

use crate::line::push_fault;
use crate::record::{TableRecord, read_record};
use client_msgs::read_request;
use record_stream::{Player, Stop};
use record_table::Table;
use schedule_text::{
    RecordFault, Stopped, Unread, limit_line, push_number, push_reply, record_line,
};
use std::alloc::Global;
use std::marker::Model;
use std::mem;
use svr_base::{MAX_EVENTS, Memory};

/// One record table, and how many records were applied to it. Contracts see both.
#[derive(Drop)]
pub struct TablePlayer {
    alloc: Global,
    table: Table,
    records: u64,
    /// Where each line stands in turn.
    line: Vec<u8>,
    /// Where the bytes of each request stand in turn.
    room: Vec<u8>,
}

impl Model for TablePlayer {
    ghost use Rattle.table_model.specs.TableText.{Applied};

    ghost Value = { Applied };

    ghost view = { λ p. record { records = p.records; table = p.table } };
}

/// Applies a request to the table, and appends the fields of what comes of it, each behind a comma.
fn push_outcome(
    line: &mut Vec<u8>,
    alloc: Global,
    table: &mut Table,
    ask: &TableRecord,
) -> Result<(), Memory>
    ensures line { OnOk result (line.new.items ≡ line.old.items ++ after_commas (outcome table.old ask.now).1) }
    ensures table { OnOk result (table.new ≡ (outcome table.old ask.now).0) }
{
    match read_request(alloc, ask.request.as_slice()) {
        Ok(request) => {
            let reply = table.apply_owned(&ask.client, ask.number, request)?;
            push_reply(line, &reply)
        }
        Err(fault) => push_fault(line, fault),
    }
}

/// Applies a request to the table as the one of this number, and appends the line of what comes of it.
fn push_row(
    line: &mut Vec<u8>,
    alloc: Global,
    table: &mut Table,
    number: u64,
    ask: &TableRecord,
) -> Result<(), Memory>
    ensures line { OnOk result (line.new.items ≡ line.old.items ++ line_text (decimal number ∷ (outcome table.old ask.now).1)) }
    ensures table { OnOk result (table.new ≡ (outcome table.old ask.now).0) }
{
    push_number(line, number)?;
    push_outcome(line, alloc, table, ask)?;
    line.push(b'\n')?;
    Ok(())
}

impl TablePlayer {
    /// An empty table of this limit, before the first record.
    pub fn new(alloc: Global, limit: u32) -> TablePlayer
        requires least { 1 ≤ limit }
        requires most { limit ≤ MOST_ROWS }
        ensures { result ≡ record { records = 0; table = empty_table limit } }
    {
        TablePlayer {
            alloc,
            table: Table::new(alloc, limit),
            records: 0,
            line: Vec::new(alloc),
            room: Vec::new(alloc),
        }
    }

    /// What a record asks, in the room of the request before it.
    fn read(&mut self, fields: &[&[u8]]) -> Result<TableRecord, Unread>
        ensures read { Reads result (table_record (record_of fields.now)) }
        ensures same { self.new ≡ self.old }
    {
        let room = mem::replace(&mut self.room, Vec::new(self.alloc));
        read_record(room, fields)
    }

    /// Leaves the room of a request to the next one.
    fn leave(&mut self, ask: TableRecord)
        ensures { self.new ≡ self.old }
    {
        self.room = ask.request.into_vec();
    }

    /// Plays a request, and appends its line.
    fn ask(&mut self, ask: &TableRecord, lines: &mut Vec<u8>) -> Result<(), Memory>
        requires { self.old.records < 2 ^ 62 }
        ensures line { OnOk result (lines.new.items ≡ lines.old.items ++ row_line self.old (outcome self.old.table ask.now).1) }
        ensures after { OnOk result (self.new ≡ after_ask self.old ask.now) }
        ensures kept { OnErr result (lines.new.items ≡ lines.old.items) }
    {
        self.line.clear();
        push_row(
            &mut self.line,
            self.alloc,
            &mut self.table,
            self.records + 1,
            ask,
        )?;
        lines.extend_from_slice(self.line.as_slice())?;
        self.records += 1;
        Ok(())
    }

    /// Says that the next record means nothing.
    fn stop_at_record(&self, fault: &RecordFault, lines: &mut Vec<u8>) -> Result<(), Memory>
        requires { self.now.records < 2 ^ 62 }
        ensures line { OnOk result (lines.new.items ≡ lines.old.items ++ line_text (stopped_at_record (self.now.records + 1) fault.now)) }
        ensures kept { OnErr result (lines.new.items ≡ lines.old.items) }
    {
        let line = record_line(self.alloc, self.records + 1, fault)?;
        lines.extend_from_slice(line.as_slice())?;
        Ok(())
    }

    /// Says that no more records are applied.
    fn stop_at_limit(&self, lines: &mut Vec<u8>) -> Result<(), Memory>
        ensures line { OnOk result (lines.new.items ≡ lines.old.items ++ line_text (stopped_at_limit Events)) }
        ensures kept { OnErr result (lines.new.items ≡ lines.old.items) }
    {
        lines.extend_from_slice(limit_line().as_bytes())?;
        Ok(())
    }

    /// How many rows there are, as a line.
    fn rows_text(&self) -> Result<Vec<u8>, Memory>
        ensures { IfOk result (λ line. line.items ≡ rows_line self.now) }
    {
        let mut line = Vec::from_slice(self.alloc, b"rows,")?;
        push_number(&mut line, u64::from(self.table.count()))?;
        line.push(b'\n')?;
        Ok(line)
    }

    /// Says how many rows there are.
    fn end(&self, lines: &mut Vec<u8>) -> Result<(), Memory>
        ensures line { OnOk result (lines.new.items ≡ lines.old.items ++ rows_line self.now) }
        ensures kept { OnErr result (lines.new.items ≡ lines.old.items) }
    {
        let line = self.rows_text()?;
        lines.extend_from_slice(line.as_slice())?;
        Ok(())
    }
}

impl Player for TablePlayer {
    type Reason = Stopped;

    ghost Given = { ⊤ };

    ghost Way = { Applied };

    ghost course = { course_from };

    ghost step = { after_record };

    ghost takes = { λ p. one_way p };

    ghost gains = { λ p q given. none_asked p q given };

    ghost live = { λ p. ⊤ };

    ghost own_faults = { λ p. 0 };

    ghost count = { λ p. p.records };

    fn play(&mut self, fields: &[&[u8]], lines: &mut Vec<u8>) -> Result<(), Stop<Stopped>> {
        let ask = match self.read(fields) {
            Ok(ask) => ask,
            Err(Unread::Memory) => return Err(Stop::Memory),
            Err(Unread::Fault(fault)) => {
                self.stop_at_record(&fault, lines)?;
                return Err(Stop::Stopped(Stopped::AtRecord));
            }
        };
        if self.records >= MAX_EVENTS {
            self.stop_at_limit(lines)?;
            return Err(Stop::Stopped(Stopped::AtLimit));
        }
        self.ask(&ask, lines)?;
        self.leave(ask);
        Ok(())
    }

    fn close(&mut self, lines: &mut Vec<u8>) -> Result<(), Memory> {
        self.end(lines)
    }

    ghost nothing = { λ p fails given w way. nothing_from w };

    ghost unstopped = { λ p fails given w way. unstopped_from w };

    ghost spent = { λ p w way here. spent_from w };

    ghost history = { none_asked_history };
}
