//! Bytes that are the canonical bytes of a request.

ghost use Rattle.std.specs.Prelude.{◌≡◌, ◌≢◌, ℕ, ◌≤◌, ◌<◌, ◌++◌, ◌∷◌, [], true, List, length, IfSome, IsSomeAnd, Some};
ghost use Rattle.proto_wire.specs.Written.{block_field, varint_field};
ghost use Rattle.values.specs.Sizes.{IsSecret, AreTries};
ghost use Rattle.client_msgs.specs.Strict.{is_canonical};

/// Whether the bytes are the canonical bytes of a valid request: what `write_request` writes for it, and no
/// other spelling. It allocates nothing.
pub fn is_canonical_request(bytes: &[u8]) -> bool
    ensures { result ≡ is_canonical bytes.now }
{
    if bytes.len() < 2 {
        return false;
    }
    if usize::from(bytes[1]) != bytes.len() - 2 {
        return false;
    }
    let fields = &bytes[2..];
    match bytes[0] {
        0x12 => is_backup(fields),
        0x1a => is_restore(fields),
        0x22 => fields.is_empty(),
        0x2a => is_expose(fields),
        _ => false,
    }
}

fn is_backup(fields: &[u8]) -> bool
    ensures told { result ≡ true → (secret pin : List ℕ) × (tries : ℕ) × IsSecret secret × (length pin ≡ 32) × AreTries tries × (fields.now ≡ block_field 1 secret ++ block_field 2 pin ++ varint_field 3 tries) }
    ensures all { (secret pin : List ℕ) (tries : ℕ) → IsSecret secret → length pin ≡ 32 → AreTries tries → fields.now ≡ block_field 1 secret ++ block_field 2 pin ++ varint_field 3 tries → result ≡ true }
{
    let Some(rest) = behind_block(fields, 1, 16, 48) else {
        return false;
    };
    let Some(rest) = behind_block(rest, 2, 32, 32) else {
        return false;
    };
    are_tries(rest)
}

fn is_restore(fields: &[u8]) -> bool
    ensures told { result ≡ true → (pin : List ℕ) × (length pin ≡ 32) × (fields.now ≡ block_field 1 pin) }
    ensures all { (pin : List ℕ) → length pin ≡ 32 → fields.now ≡ block_field 1 pin → result ≡ true }
{
    match behind_block(fields, 1, 32, 32) {
        Some(rest) => rest.is_empty(),
        None => false,
    }
}

fn is_expose(fields: &[u8]) -> bool
    ensures told { result ≡ true → (secret : List ℕ) × IsSecret secret × (fields.now ≡ block_field 1 secret) }
    ensures all { (secret : List ℕ) → IsSecret secret → fields.now ≡ block_field 1 secret → result ≡ true }
{
    match behind_block(fields, 1, 16, 48) {
        Some(rest) => rest.is_empty(),
        None => false,
    }
}

/// What stands behind a field of this number that holds from `least` to `most` bytes, where one stands in front.
fn behind_block(bytes: &[u8], number: u8, least: u8, most: u8) -> Option<&[u8]>
    requires from_1 { 1 ≤ number }
    requires to_15 { number < 16 }
    requires some { 1 ≤ least }
    requires short { most < 128 }
    ensures told { IfSome result (λ rest. (block : List ℕ) × (least ≤ length block) × (length block ≤ most) × (bytes.now ≡ block_field number block ++ rest.now)) }
    ensures all { (block rest : List ℕ) → least ≤ length block → length block ≤ most → bytes.now ≡ block_field number block ++ rest → IsSomeAnd result (λ found. found.now ≡ rest) }
{
    if bytes.len() < 2 {
        return None;
    }
    if bytes[0] != 8 * number + 2 {
        return None;
    }
    let len = bytes[1];
    if len < least {
        return None;
    }
    if len > most {
        return None;
    }
    if bytes.len() - 2 < usize::from(len) {
        return None;
    }
    Some(&bytes[2 + usize::from(len)..])
}

/// Whether the bytes are the field of 1 to 255 tries.
fn are_tries(field: &[u8]) -> bool
    ensures told { result ≡ true → (tries : ℕ) × AreTries tries × (field.now ≡ varint_field 3 tries) }
    ensures all { (tries : ℕ) → AreTries tries → field.now ≡ varint_field 3 tries → result ≡ true }
{
    if field.len() < 2 {
        return false;
    }
    if field[0] != 0x18 {
        return false;
    }
    let tries = field[1];
    if tries == 0 {
        return false;
    }
    // From 128 on the low byte of the varint is the number itself, and the high one is 1.
    if tries < 128 {
        return field.len() == 2;
    }
    if field.len() != 3 {
        return false;
    }
    field[2] == 1
}
