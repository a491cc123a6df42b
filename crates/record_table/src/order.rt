//! The order of clients.
ghost use Rattle.record_rules.specs.Clients.{IsNumberOf};

use values::ClientId;

/// The number that the client's bytes spell, the first of them worth most. Clients stand in the
/// order of their numbers, and two numbers are compared at once.
pub fn number_of(client: &ClientId) -> u128
    ensures { IsNumberOf client.now result }
{
    let bytes = client.0.as_slice();
    let number = u128::from_be_bytes(client.0);
    prove!(bytes.len() == 16);
    number
}
