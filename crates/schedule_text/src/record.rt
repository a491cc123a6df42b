//! The events that records stand for, by their fields from left to right.
ghost use Rattle.std.specs.Prelude.{◌≡◌};
ghost use Rattle.record_cutting.specs.Lines.{record_of};
ghost use Rattle.schedule_model.specs.Records as spec;
ghost use Rattle.schedule_text.specs.Read.{Reads};
ghost use Rattle.schedule_text.specs.Words.{OfClient, OfReplica, meant};

use crate::fault::{RecordFault, Unread};
use crate::field::{client_at, hex_at, number_at, pin_at, replica_at, request_at, small_at};
use crate::voters::read_begin;
use crate::word::Word;
use group_quorum::MAX_MARGIN;
use std::alloc::Global;
use values::{Event, MAX_SETTLED, Want};

/// The event of a record of a replica.
fn read_replica(word: Word, fields: &[&[u8]]) -> Result<Event, RecordFault>
    requires { OfReplica word }
    ensures { result ≡ spec.fields_as (meant word) (record_of fields.now) }
{
    let replica = replica_at(fields, 2)?;
    Ok(match word {
        Word::Start => Event::Start { replica },
        Word::Tick => Event::Tick { replica },
        Word::Crash => Event::Crash { replica },
        Word::Save => Event::Save { replica },
        Word::Roll => {
            let state = small_at(fields, 3, 0, u32::MAX)?;
            Event::Roll { replica, state }
        }
        Word::Margin => {
            let margin = small_at(fields, 3, 0, u32::from(MAX_MARGIN))? as u8;
            Event::Margin { replica, margin }
        }
        Word::Join => {
            let id = replica_at(fields, 3)?;
            Event::Join { replica, id }
        }
        Word::Admit => {
            let id = replica_at(fields, 3)?;
            Event::Admit { replica, id }
        }
        Word::Remove => {
            let id = replica_at(fields, 3)?;
            Event::Remove { replica, id }
        }
        _ => unreachable!(),
    })
}

/// The event of a record of a client.
fn read_client(word: Word, fields: &[&[u8]]) -> Result<Event, RecordFault>
    requires { OfClient word }
    ensures { result ≡ spec.fields_as (meant word) (record_of fields.now) }
{
    let client = client_at(fields, 2)?;
    Ok(match word {
        Word::Recover => {
            let pin = pin_at(fields, 4)?;
            let want = Want::Recover { pin };
            Event::Want { client, want }
        }
        Word::Erase => {
            let want = Want::Erase;
            Event::Want { client, want }
        }
        Word::Say => {
            let replica = replica_at(fields, 3)?;
            Event::Say { client, replica }
        }
        Word::Hear => {
            let answer = number_at(fields, 3, 1, u64::MAX)?;
            Event::Hear { client, answer }
        }
        Word::Again => Event::Again { client },
        _ => unreachable!(),
    })
}

/// `ask,R,C,N,HEX`. `Memory` comes for a record without a fault.
fn read_ask(alloc: Global, fields: &[&[u8]]) -> Result<Event, Unread>
    ensures { Reads result (spec.ask_of (record_of fields.now)) }
{
    let replica = replica_at(fields, 2)?;
    let client = client_at(fields, 3)?;
    let number = number_at(fields, 4, 0, u64::MAX)?;
    let request = request_at(alloc, fields, 5)?;
    Ok(Event::Ask {
        replica,
        client,
        number,
        request,
    })
}

/// `want,C,store,DATA,PIN,TRIES`. `Memory` comes for a record without a fault.
fn read_store(alloc: Global, fields: &[&[u8]]) -> Result<Event, Unread>
    ensures { Reads result (spec.store_of (record_of fields.now)) }
{
    let client = client_at(fields, 2)?;
    // Want of memory is said only after the faults of the fields behind.
    let secret = match hex_at(alloc, fields, 4) {
        Ok(secret) => Some(secret),
        Err(Unread::Memory) => None,
        Err(Unread::Fault(fault)) => return Err(Unread::Fault(fault)),
    };
    let pin = pin_at(fields, 5)?;
    let tries = small_at(fields, 6, 0, u32::MAX)?;
    let secret = secret.ok_or(Unread::Memory)?;
    let want = Want::Store { secret, pin, tries };
    Ok(Event::Want { client, want })
}

/// The event of a record of this word and a right number of fields. `Memory` comes for a record without a fault.
pub fn read_fields(alloc: Global, word: Word, fields: &[&[u8]]) -> Result<Event, Unread>
    ensures { Reads result (spec.fields_as (meant word) (record_of fields.now)) }
{
    Ok(match word {
        Word::Begin => read_begin(alloc, fields)?,
        Word::Ask => read_ask(alloc, fields)?,
        Word::Store => read_store(alloc, fields)?,
        Word::Deliver => {
            let message = number_at(fields, 2, 1, u64::MAX)?;
            Event::Deliver { message }
        }
        Word::Lose => {
            let message = number_at(fields, 2, 1, u64::MAX)?;
            Event::Lose { message }
        }
        Word::Settle => {
            let most = small_at(fields, 2, 0, MAX_SETTLED)?;
            Event::Settle { most }
        }
        Word::Recover | Word::Erase | Word::Say | Word::Hear | Word::Again => {
            read_client(word, fields)?
        }
        _ => read_replica(word, fields)?,
    })
}
