//! What a record asks of the table.
ghost use Rattle.record_cutting.specs.Lines.{record_of};
ghost use Rattle.schedule_text.specs.Read.{Reads};
ghost use Rattle.table_model.specs.TableText.{table_record};

use schedule_text::{RecordFault, Unread, client_of, hex_of, number_of};
use std::marker::Model;
use svr_base::{Bytes, Cause, ClientId};

/// A client's numbered request, by its bytes.
#[derive(Debug, Drop)]
pub struct TableRecord {
    pub client: ClientId,
    pub number: u64,
    pub request: Bytes,
}

impl Model for TableRecord {
    ghost use Rattle.table_model.specs.TableText.{TableRecord as Asked};

    ghost Value = { Asked };

    ghost view = { λ r. record { client = r.client; number = r.number; request = r.request } };
}

/// What a record asks: it has three fields, a client, a number and the hexadecimal of a request's bytes. These stand in
/// `room`, whose bytes before do not count.
pub fn read_record(room: Vec<u8>, fields: &[&[u8]]) -> Result<TableRecord, Unread>
    ensures { Reads result (table_record (record_of fields.now)) }
{
    let [client, number, hex] = fields else {
        return Err(Unread::Fault(RecordFault::new(Cause::Fields, 0)));
    };
    let client = client_of(client, 1)?;
    let number = number_of(number, 2, 0, u64::MAX)?;
    let request = hex_of(room, hex, 3)?;
    Ok(TableRecord {
        client,
        number,
        request,
    })
}
