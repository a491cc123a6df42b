//! The line which says that a driver gave up a client's want.
ghost use Rattle.std.specs.Prelude.{◌≡◌, ◌≢◌, ◌++◌, ◌∷◌, [], ℕ, List, codes, IfSome, IfNone};
ghost use Rattle.std.specs.Bool.{Decides};
ghost use Rattle.trace_picture.specs.Forms.{IsClient, IsGaveUp};

use hex::encode_to_slice;
use schedule_text::client_of;

/// Whether a field is a client as it is written: 32 digits, in lower case.
fn is_client(field: &[u8]) -> bool
    ensures { Decides result (IsClient field.now) }
{
    let Ok(client) = client_of(field, 0) else {
        return false;
    };
    let mut digits = [0; 32];
    let written = encode_to_slice(client.0, &mut digits);
    written.is_ok() && field == digits.as_slice()
}

/// What stands where the client does.
fn client_field(line: &[u8]) -> Option<&[u8]>
    ensures found { IfSome result (λ field. line.now ≡ codes "gaveup," ++ (field.now ++ codes ",16")) }
    ensures none { IfNone result ((field : List ℕ) → line.now ≢ codes "gaveup," ++ (field ++ codes ",16")) }
{
    let Some(rest) = line.strip_prefix(b"gaveup,") else {
        return None;
    };
    rest.strip_suffix(b",16")
}

/// Whether this is such a line, without its line feed.
pub(crate) fn is_gaveup(line: &[u8]) -> bool
    ensures { Decides result (IsGaveUp (line.now ++ 10 ∷ [])) }
{
    match client_field(line) {
        Some(field) => is_client(field),
        None => false,
    }
}
