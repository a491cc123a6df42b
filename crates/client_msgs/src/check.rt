//! The sizes of a request.

ghost use Rattle.std.specs.Prelude.{◌≡◌, ◌↔◌, length, IsOk};
ghost use Rattle.std.specs.Result.{result_err};
ghost use Rattle.values.specs.Sizes.{IsValid};
ghost use Rattle.client_msgs.specs.Sizes.{size_fault, tries_fault, outside};

use values::{Part, Request};

/// The first size of a request that is out of range, in the order secret, pin, tries: the part and its
/// length, or for the tries their number. A secret has 16 to 48 bytes, a pin 32, and there are from 1 to
/// 255 tries.
pub fn check_request(request: &Request) -> Result<(), (Part, u64)>
    ensures fault { result_err result ≡ size_fault request.now }
    ensures valid { IsOk result ↔ IsValid request.now }
{
    match request {
        Request::Backup { secret, pin, tries } => {
            check_secret(secret.as_slice())?;
            check_pin(&pin.0)?;
            check_tries(*tries)
        }
        Request::Restore { pin } => check_pin(&pin.0),
        Request::Delete => Ok(()),
        Request::Expose { secret } => check_secret(secret.as_slice()),
    }
}

pub(crate) fn check_secret(secret: &[u8]) -> Result<(), (Part, u64)>
    ensures { result_err result ≡ outside Part.Secret 16 48 (length secret.now) }
{
    check(Part::Secret, secret.len() as u64, 16, 48)
}

pub(crate) fn check_pin(pin: &[u8]) -> Result<(), (Part, u64)>
    ensures { result_err result ≡ outside Part.Pin 32 32 (length pin.now) }
{
    check(Part::Pin, pin.len() as u64, 32, 32)
}

pub(crate) fn check_tries(tries: u32) -> Result<(), (Part, u64)>
    ensures { result_err result ≡ tries_fault tries }
{
    check(Part::Tries, u64::from(tries), 1, 255)
}

fn check(part: Part, size: u64, least: u64, most: u64) -> Result<(), (Part, u64)>
    ensures { result_err result ≡ outside part least most size }
{
    if least <= size && size <= most {
        Ok(())
    } else {
        Err((part, size))
    }
}
