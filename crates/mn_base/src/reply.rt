ghost use Rattle.std.specs.Prelude.{◌≡◌, option_map, IfOk};

use crate::{Key, Name, NoMemory, TryCopy, Value, copies_of};
use std::alloc::Global;
use std::marker::Model;

/// A key with its value.
#[derive(Debug, Drop)]
pub struct Pair {
    pub key: Key,
    pub value: Value,
}

impl TryCopy for Pair {
    fn try_copy(&self, alloc: Global) -> Result<Self, NoMemory> {
        Ok(Pair {
            key: self.key.try_copy(alloc)?,
            value: self.value.try_copy(alloc)?,
        })
    }
}

/// A version as it is listed: its name, its parent's name or none, and whether it is frozen.
#[derive(Debug, Drop)]
pub struct Version {
    pub name: Name,
    pub parent: Option<Name>,
    pub frozen: bool,
}

impl TryCopy for Version {
    fn try_copy(&self, alloc: Global) -> Result<Self, NoMemory> {
        Ok(Version {
            name: self.name.try_copy(alloc)?,
            parent: self.parent.try_copy(alloc)?,
            frozen: self.frozen,
        })
    }
}

/// The value that a Check found, or none. It lies in memory of its own, since a reply that has one
/// is rare. Contracts see it as an option.
#[derive(Debug, Drop)]
pub struct Found {
    value: Option<Box<Value>>,
}

impl Model for Found {
    ghost use Rattle.std.specs.Prelude.{ℕ, List, Option, option_map};

    ghost Value = { Option (List ℕ) };

    ghost view = { λ f. option_map (λ b. b.value) f.value };
}

impl Found {
    /// NoMemory: there was no memory for the value.
    pub fn new(alloc: Global, value: Option<Value>) -> Result<Self, NoMemory>
        ensures { IfOk result (λ found. found ≡ value) }
    {
        match value {
            Some(value) => Ok(Found {
                value: Some(Box::new(alloc, value)?),
            }),
            None => Ok(Found { value: None }),
        }
    }

    pub fn get(&self) -> Option<&Value>
        ensures { option_map (λ v. v.now) result ≡ self.now }
    {
        match &self.value {
            Some(value) => Some(value),
            None => None,
        }
    }
}

impl TryCopy for Found {
    fn try_copy(&self, alloc: Global) -> Result<Self, NoMemory> {
        match &self.value {
            Some(value) => Ok(Found {
                value: Some(Box::new(alloc, value.try_copy(alloc)?)?),
            }),
            None => Ok(Found { value: None }),
        }
    }
}

/// What each Get of a transaction found, in order: a value, or none. Contracts see them as a list.
#[derive(Debug, Drop)]
pub struct Founds {
    found: Vec<Option<Value>>,
}

impl Model for Founds {
    ghost use Rattle.std.specs.Prelude.{ℕ, List, Option};

    ghost Value = { List (Option (List ℕ)) };

    ghost view = { λ f. f.found.items };
}

impl Founds {
    /// It takes no memory.
    pub fn from_vec(found: Vec<Option<Value>>) -> Self
        ensures { result ≡ found.items }
    {
        Founds { found }
    }

    pub fn into_vec(self) -> Vec<Option<Value>>
        ensures { result.items ≡ self }
    {
        self.found
    }

    pub fn as_slice(&self) -> &[Option<Value>]
        ensures { result.now ≡ self.now }
    {
        &self.found
    }
}

impl TryCopy for Founds {
    fn try_copy(&self, alloc: Global) -> Result<Self, NoMemory> {
        Ok(Founds {
            found: copies_of(alloc, &self.found)?,
        })
    }
}

/// Pairs of keys and values. Contracts see them as a list.
#[derive(Debug, Drop)]
pub struct Pairs {
    pairs: Vec<Pair>,
}

impl Model for Pairs {
    ghost use Rattle.std.specs.Prelude.{List};
    ghost use Rattle.mn_base.specs.declared.reply.Pair.{Pair};

    ghost Value = { List Pair };

    ghost view = { λ p. p.pairs.items };
}

impl Pairs {
    /// It takes no memory.
    pub fn from_vec(pairs: Vec<Pair>) -> Self
        ensures { result ≡ pairs.items }
    {
        Pairs { pairs }
    }

    pub fn into_vec(self) -> Vec<Pair>
        ensures { result.items ≡ self }
    {
        self.pairs
    }

    pub fn as_slice(&self) -> &[Pair]
        ensures { result.now ≡ self.now }
    {
        &self.pairs
    }
}

impl TryCopy for Pairs {
    fn try_copy(&self, alloc: Global) -> Result<Self, NoMemory> {
        Ok(Pairs {
            pairs: copies_of(alloc, &self.pairs)?,
        })
    }
}

/// Versions as they are listed, in order of number. Contracts see them as a list.
#[derive(Debug, Drop)]
pub struct Listing {
    versions: Vec<Version>,
}

impl Model for Listing {
    ghost use Rattle.std.specs.Prelude.{List};
    ghost use Rattle.mn_base.specs.declared.reply.Version.{Version};

    ghost Value = { List Version };

    ghost view = { λ l. l.versions.items };
}

impl Listing {
    /// It takes no memory.
    pub fn from_vec(versions: Vec<Version>) -> Self
        ensures { result ≡ versions.items }
    {
        Listing { versions }
    }

    pub fn into_vec(self) -> Vec<Version>
        ensures { result.items ≡ self }
    {
        self.versions
    }

    pub fn as_slice(&self) -> &[Version]
        ensures { result.now ≡ self.now }
    {
        &self.versions
    }
}

impl TryCopy for Listing {
    fn try_copy(&self, alloc: Global) -> Result<Self, NoMemory> {
        Ok(Listing {
            versions: copies_of(alloc, &self.versions)?,
        })
    }
}

/// What the store replies to an operation. The last five refuse it: then nothing has changed.
#[derive(Debug)]
pub enum Reply {
    /// A transaction ran; what its Gets found.
    Values { found: Founds },
    /// Step `step` (from 1) was the first Check that wasn't met; nothing has changed.
    Unmet { step: u8, found: Found },
    /// The child was made.
    Made,
    Pairs { pairs: Pairs },
    Listing { versions: Listing },
    /// The named version isn't there.
    NoVersion,
    /// The version is frozen and the operation needs a writable one.
    Frozen,
    /// The version is writable and the operation needs a frozen one.
    NotFrozen,
    /// There is a version of the child's name.
    NameTaken,
    /// There are 64 versions.
    VersionsFull,
}

/// It is let go by a call, which is proved once, and not in place wherever one goes.
impl Drop for Reply {
    fn drop(self) {
        match self {
            Reply::Values { found } => drop(found),
            Reply::Unmet { step: _step, found } => drop(found),
            Reply::Made => {}
            Reply::Pairs { pairs } => drop(pairs),
            Reply::Listing { versions } => drop(versions),
            Reply::NoVersion => {}
            Reply::Frozen => {}
            Reply::NotFrozen => {}
            Reply::NameTaken => {}
            Reply::VersionsFull => {}
        }
    }
}

impl TryCopy for Reply {
    fn try_copy(&self, alloc: Global) -> Result<Self, NoMemory> {
        match self {
            Reply::Values { found } => Ok(Reply::Values {
                found: found.try_copy(alloc)?,
            }),
            Reply::Unmet { step, found } => Ok(Reply::Unmet {
                step: *step,
                found: found.try_copy(alloc)?,
            }),
            Reply::Made => Ok(Reply::Made),
            Reply::Pairs { pairs } => Ok(Reply::Pairs {
                pairs: pairs.try_copy(alloc)?,
            }),
            Reply::Listing { versions } => Ok(Reply::Listing {
                versions: versions.try_copy(alloc)?,
            }),
            Reply::NoVersion => Ok(Reply::NoVersion),
            Reply::Frozen => Ok(Reply::Frozen),
            Reply::NotFrozen => Ok(Reply::NotFrozen),
            Reply::NameTaken => Ok(Reply::NameTaken),
            Reply::VersionsFull => Ok(Reply::VersionsFull),
        }
    }
}
