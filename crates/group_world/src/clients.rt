//! The cores of clients, by their ids.
ghost use Rattle.std.specs.Prelude.{◌≡◌, [], length, option_map, None};
ghost use Rattle.group_model.specs.Group.{core_of};
ghost use Rattle.group_world.specs.Cores.{HearsAnswer, TakesWant};

use client_core::Client;
use std::alloc::Global;
use std::collections::BTreeMap;
use std::marker::Model;
use values::{Answer, ClientId, Memory, Report, Want, WantFault};

/// The clients that have wanted something. Contracts see their cores by id.
#[derive(Drop)]
pub(crate) struct Clients {
    clients: BTreeMap<ClientId, Client>,
}

impl Model for Clients {
    ghost use Rattle.std.specs.Prelude.{List, map};
    ghost use Rattle.values.specs.declared.ids.ClientId.{ClientId};
    ghost use Rattle.schedule_model.specs.Client.{Core};

    ghost Value = { List (ClientId × Core) };

    ghost view = { λ c. map (λ (e : ClientId × (ClientId × Core)). (e.0, e.1.1)) c.clients.entries };
}

impl Clients {
    /// An empty map.
    pub fn new(alloc: Global) -> Clients
        ensures { result ≡ [] }
    {
        Clients {
            clients: BTreeMap::new(alloc),
        }
    }

    /// How many clients there are.
    pub fn len(&self) -> usize
        ensures { result ≡ length self.now }
    {
        self.clients.len()
    }

    /// The client of this id; `None` exactly where it has wanted nothing yet.
    pub fn get(&self, client: &ClientId) -> Option<&Client>
        ensures { option_map (λ c. c.now.1) result ≡ core_of self.now client.now }
    {
        self.clients.get(client)
    }

    /// A client takes up a want, its first one also where it is new. A want that is refused changes nothing, and neither
    /// does one for which memory runs out.
    pub fn want(&mut self, client: &ClientId, want: Want) -> Result<Result<(), WantFault>, Memory>
        ensures { TakesWant self.old client.now want self.new result }
    {
        match self.clients.get_mut(client) {
            Some(known) => Ok(known.want(want)),
            None => self.want_first(client, want),
        }
    }

    /// A client that wanted nothing yet takes up a want.
    fn want_first(&mut self, client: &ClientId, want: Want) -> Result<Result<(), WantFault>, Memory>
        requires { core_of self.old client.now ≡ None }
        ensures { TakesWant self.old client.now want self.new result }
    {
        let mut first = Client::new(*client);
        match first.want(want) {
            Ok(()) => {}
            Err(fault) => return Ok(Err(fault)),
        }
        match self.clients.insert(*client, first) {
            Ok(_) => Ok(Ok(())),
            Err(_) => Err(Memory),
        }
    }

    /// A client hears an answer to the request of this number, and tells what became of its want where that is known. One
    /// that has wanted nothing yet hears nothing.
    pub fn hear(&mut self, client: &ClientId, number: u64, answer: Answer) -> Option<Report>
        ensures { HearsAnswer self.old client.now number answer self.new result }
    {
        let Some(known) = self.clients.get_mut(client) else {
            return None;
        };
        known.hear(number, answer)
    }
}
