//! The lists of a run's clients and coordinators.
ghost use Rattle.std.specs.Prelude.{◌≡◌};

use mn_runs::ClientList;
use std::marker::Model;

/// The list of each client and recovery coordinator, from number 0 on. Contracts see them as a
/// list.
#[derive(Debug, Drop)]
pub struct ClientLists {
    lists: Vec<ClientList>,
}

impl Model for ClientLists {
    ghost use Rattle.std.specs.Prelude.{List};
    ghost use Rattle.mn_runs.specs.Lists.{ClientState};

    ghost Value = { List ClientState };

    ghost view = { λ l. l.lists.items };
}

impl ClientLists {
    /// It takes no memory.
    pub fn from_vec(lists: Vec<ClientList>) -> Self
        ensures { result ≡ lists.items }
    {
        ClientLists { lists }
    }

    pub fn into_vec(self) -> Vec<ClientList>
        ensures { result.items ≡ self }
    {
        self.lists
    }

    pub fn as_slice(&self) -> &[ClientList]
        ensures { result.now ≡ self.now }
    {
        &self.lists
    }
}
