//! The record by which a group begins.
ghost use Rattle.std.specs.Prelude.{◌≡◌, ◌≤◌, ℕ, List, None, drop, length, option_map};
ghost use Rattle.group_quorum.specs.Voters.{fault_of};
ghost use Rattle.record_cutting.specs.Lines.{record_of};
ghost use Rattle.schedule_model.specs.Records as spec;
ghost use Rattle.schedule_text.specs.Ids.{HoldsFirst, ReadsIds};
ghost use Rattle.schedule_text.specs.Read.{Reads};

use crate::fault::{RecordFault, Unread};
use crate::field::small_at;
use crate::number::number_of;
use group_quorum::{Config, ConfigFault, MAX_ID, MAX_MARGIN, MAX_VOTERS};
use std::alloc::Global;
use values::{BeginIds, Cause, Event, MOST_ROWS};

/// Why a list of voters makes no group. Each id is in range here.
fn cause_of(fault: ConfigFault) -> Cause
    ensures { result ≡ spec.cause_of fault }
{
    match fault {
        ConfigFault::TooMany(_) => Cause::TooMany,
        ConfigFault::BadId(_) => Cause::Range,
        ConfigFault::Double(_) => Cause::Double,
        ConfigFault::TooFew(_) => Cause::TooFew,
    }
}

/// The texts of the voters: all from field 4 on.
fn voter_texts<'a, 'b>(fields: &'b [&'a [u8]]) -> &'b [&'a [u8]]
    ensures { record_of result.now ≡ drop 3 (record_of fields.now) }
{
    &fields[fields.len().min(3)..]
}

/// Reads the ids of the voters, whose first is field 4, and keeps as many as there may be.
fn read_ids(texts: &[&[u8]], ids: &mut [u32; MAX_VOTERS]) -> Result<(), RecordFault>
    ensures { ReadsIds result ids.new (record_of texts.now) }
{
    for (place, text) in texts.iter().enumerate() {
        let id = number_of(text, place + 4, 1, u64::from(MAX_ID))?;
        if place < MAX_VOTERS {
            ids[place] = id as u32;
        }
    }
    Ok(())
}

/// What is wrong with so many voters, the first of which these are.
fn voters_fault(ids: &[u32; MAX_VOTERS], count: usize, margin: u8) -> Option<Cause>
    ensures fault { (all : List ℕ) → length all ≡ count → HoldsFirst ids.now all → result ≡ option_map spec.cause_of (fault_of margin all) }
    ensures few { result ≡ None → count ≤ MAX_VOTERS }
{
    if count > MAX_VOTERS {
        return Some(Cause::TooMany);
    }
    match Config::new(&ids[..count], margin) {
        Ok(_) => None,
        Err(fault) => Some(cause_of(fault)),
    }
}

/// `begin,M,LIMIT,R,..`. `Memory` comes for a record without a fault.
pub fn read_begin(alloc: Global, fields: &[&[u8]]) -> Result<Event, Unread>
    ensures { Reads result (spec.begin_of (record_of fields.now)) }
{
    let margin = small_at(fields, 2, 0, u32::from(MAX_MARGIN))? as u8;
    let limit = small_at(fields, 3, 1, MOST_ROWS)?;
    let texts = voter_texts(fields);
    let mut ids = [0; MAX_VOTERS];
    read_ids(texts, &mut ids)?;
    if let Some(cause) = voters_fault(&ids, texts.len(), margin) {
        return Err(Unread::Fault(RecordFault::new(cause, 0)));
    }
    let voters = Vec::from_slice(alloc, &ids[..texts.len()])?;
    Ok(Event::Begin {
        margin,
        limit,
        voters: BeginIds::from(voters),
    })
}
