//! What is said of bytes that are no request.
ghost use Rattle.std.specs.Prelude.{◌≡◌, ◌++◌, OnOk, IsErr};
ghost use Rattle.replica_model.specs.Clients as clients;
ghost use Rattle.schedule_model.specs.Lines.{answer_fields};
ghost use Rattle.schedule_text.specs.Joined.{after_commas};
ghost use Rattle.values.specs.declared.message.Answer.TheVariants as answer;
ghost use Rattle.table_model.specs.TableText.{fault_fields};

use client_msgs::RequestFault;
use proto_wire::WireFault;
use schedule_text::{part_word, push_field, push_number};
use svr_base::{Memory, Part};

/// The offset of a wire fault.
fn offset_of(fault: WireFault) -> usize
    ensures { result ≡ clients.offset_of fault }
{
    match fault {
        WireFault::Cut(at)
        | WireFault::LongVarint(at)
        | WireFault::FieldZero(at)
        | WireFault::GroupWire(at)
        | WireFault::BadWire(at) => at,
    }
}

/// Appends `invalid`, the part and its size, each behind a comma.
fn push_invalid(line: &mut Vec<u8>, part: Part, size: u64) -> Result<(), Memory>
    ensures { OnOk result (line.new.items ≡ line.old.items ++ after_commas (answer_fields (answer.Invalid part size))) }
{
    push_field(line, b"invalid")?;
    push_field(line, part_word(part).as_bytes())?;
    line.push(b',')?;
    push_number(line, size)?;
    Ok(())
}

/// Appends the fields of what is said of bytes that are no request, each behind a comma.
pub fn push_fault(line: &mut Vec<u8>, fault: RequestFault) -> Result<(), Memory>
    ensures line { OnOk result (line.new.items ≡ line.old.items ++ after_commas (fault_fields fault)) }
    ensures memory { fault ≡ RequestFault.Memory → IsErr result }
{
    match fault {
        RequestFault::Memory => Err(Memory),
        RequestFault::Wire(fault) => {
            line.extend_from_slice(b",malformed,")?;
            push_number(line, offset_of(fault) as u64)?;
            Ok(())
        }
        RequestFault::Nothing => push_invalid(line, Part::Nothing, 0),
        RequestFault::Size(part, size) => push_invalid(line, part, size),
    }
}
