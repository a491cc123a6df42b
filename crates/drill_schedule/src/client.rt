//! What the clients of a drill have. They are numbered from 1.
ghost use Rattle.std.specs.Prelude.{◌≡◌, ◌≤◌, ◌<◌, ◌^◌, IfOk};
ghost use Rattle.schedule_model.specs.Drill as spec;

use std::alloc::Global;
use values::{Bytes, ClientId, Hash, Memory, Want};

/// The PIN that no client has.
const NO_PIN: Hash = Hash([0; 32]);

/// Its id is its number, high byte first.
pub fn client(number: u32) -> ClientId
    ensures { result ≡ spec.client number }
{
    let mut id = [0; 16];
    id[8..].copy_from_slice(&u64::from(number).to_be_bytes());
    ClientId(id)
}

/// The secret that it stores.
fn secret(alloc: Global, number: u32) -> Result<Bytes, Memory>
    ensures { IfOk result (λ bytes. bytes ≡ spec.secret number) }
{
    Bytes::from_slice(alloc, &[(number % 256) as u8; 16])
}

/// Its PIN.
fn pin(number: u32) -> Hash
    ensures { result ≡ spec.pin number }
{
    Hash([(1 + number % 255) as u8; 32])
}

/// What it wants first: that its secret is kept.
pub fn first_want(alloc: Global, number: u32) -> Result<Want, Memory>
    ensures { IfOk result (λ want. want ≡ Want.Store (spec.secret number) (spec.pin number) (spec.tries number)) }
{
    let secret = secret(alloc, number)?;
    Ok(Want::Store {
        secret,
        pin: pin(number),
        tries: 1 + number % 5,
    })
}

/// What it wants then, by a word.
pub fn wish(number: u32, word: u32) -> Want
    ensures { result ≡ spec.wish number word }
{
    match word % 4 {
        1 => Want::Recover { pin: NO_PIN },
        2 => Want::Erase,
        _ => Want::Recover { pin: pin(number) },
    }
}
