ghost use Rattle.std.specs.Prelude.{◌≡◌};
ghost use Rattle.mn_base.specs.Ids.{tid_lt};

/// The number of a memory node, from 0.
#[derive(Clone, Copy, Debug, Default, PartialEq, Eq, PartialOrd, Ord)]
pub struct NodeNo(pub u8);

/// The number of an actor that calls nodes: a client (0 to 15), the coordinator that opens and
/// closes (16), or a recovery coordinator (17 to 20).
#[derive(Clone, Copy, Debug, PartialEq, Eq, PartialOrd, Ord)]
pub struct ClientNo(pub u8);

/// The number of a version, 0 to 63.
#[derive(Clone, Copy, Debug, PartialEq, Eq, PartialOrd, Ord)]
pub struct VersionNo(pub u8);

/// Where a page stands: a node, and one of its slots (0 to 4,095).
#[derive(Clone, Copy, Debug, PartialEq, Eq, PartialOrd, Ord)]
pub struct Addr {
    pub node: NodeNo,
    pub slot: u16,
}

/// The id of a minitransaction: the run that it was made in (from 1), the actor that made it, and
/// its number among those that this actor made in this run (from 1). Ids are ordered by run, then
/// by client, then by serial.
#[derive(Clone, Copy, Debug, PartialEq, Eq, PartialOrd, Ord)]
pub struct Tid {
    pub run: u32,
    pub client: ClientNo,
    pub serial: u32,
}

impl Tid {
    /// It comes before the other.
    pub fn precedes(self, other: Tid) -> bool
        ensures { result ≡ tid_lt self other }
    {
        if self.run != other.run {
            return self.run < other.run;
        }
        if self.client.0 != other.client.0 {
            return self.client.0 < other.client.0;
        }
        self.serial < other.serial
    }
}

/// Bytes of a node's space: the place of the first, and how many; by default none.
#[derive(Clone, Copy, Debug, Default, PartialEq, Eq)]
pub struct Range {
    pub start: u32,
    pub length: u32,
}
