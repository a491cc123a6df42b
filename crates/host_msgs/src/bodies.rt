//! The bodies of entries, written.

ghost use Rattle.std.specs.Prelude.{◌≡◌, ◌++◌, true, OnOk};
ghost use Rattle.std.specs.Int.{w8};
ghost use Rattle.fixed_fields.specs.Fields.{number_bytes};
ghost use Rattle.fixed_fields.specs.Written.{Puts};
ghost use Rattle.group_quorum.specs.Voters.{IsSound};
ghost use Rattle.client_msgs.specs.Strict.{is_canonical};
ghost use Rattle.group_msgs.specs.Ranges.{IsBodyInRange};
ghost use Rattle.values.specs.declared.entry.Body.TheVariants as body;
ghost use Rattle.host_msgs.specs.Items.{ask_fields, conf_fields};
ghost use Rattle.host_msgs.specs.Needs.{IsShortPart};
ghost use Rattle.host_msgs.specs.Grammar.{IsBody};
ghost use Rattle.host_msgs.specs.Contents.{body_kind, body_content};

use crate::kinds;
use crate::pieces::{push_block, push_client};
use fixed_fields::Writer;
use values::{Body, ClientId, Memory};

/// The kind of a body and its bytes.
pub fn push_body(out: &mut Writer, body: &Body) -> Result<(), Memory>
    requires { IsBodyInRange body.now }
    ensures puts { Puts result out.old out.new (number_bytes w8 (body_kind body.now) ++ body_content body.now) }
    ensures grammar { OnOk result (IsBody body.now) }
    ensures short { OnOk result (IsShortPart (body_content body.now)) }
{
    match body {
        Body::Noop => Ok(out.u8(kinds::body::NOOP)?),
        Body::Ask {
            client,
            number,
            request,
        } => push_ask(out, client, *number, request.as_slice()),
        Body::Members { margin, voters } => push_configuration(out, *margin, voters.as_slice()),
    }
}

fn push_ask(out: &mut Writer, client: &ClientId, number: u64, request: &[u8]) -> Result<(), Memory>
    requires { is_canonical request.now ≡ true }
    ensures puts { Puts result out.old out.new
        (number_bytes w8 1 ++ ask_fields.spelled (client.now.0, (number, request.now))) }
    ensures grammar { OnOk result (IsBody (body.Ask client.now number request.now)) }
    ensures short { OnOk result (IsShortPart (ask_fields.spelled (client.now.0, (number, request.now)))) }
{
    out.u8(kinds::body::ASK)?;
    push_client(out, client)?;
    out.u64(number)?;
    push_block(out, request)
}

fn push_configuration(out: &mut Writer, margin: u8, voters: &[u32]) -> Result<(), Memory>
    requires { IsSound (record { margin = margin; voters = voters.now }) }
    ensures puts { Puts result out.old out.new (number_bytes w8 2 ++ conf_fields.spelled (margin, voters.now)) }
    ensures grammar { OnOk result (IsBody (body.Members margin voters.now)) }
    ensures short { OnOk result (IsShortPart (conf_fields.spelled (margin, voters.now))) }
{
    out.u8(kinds::body::MEMBERS)?;
    out.u8(margin)?;
    out.counted(voters)?;
    Ok(())
}
