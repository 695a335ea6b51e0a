//! Why a table is refused, and where.

ghost use Rattle.std.specs.Prelude.{◌≡◌};
ghost use Rattle.afdx_table.specs.Names.{key_text};
ghost use Rattle.afdx_table.specs.declared.fault.TableFault.TheVariants.{Memory};

use std::alloc::AllocError;
use std::fmt;
use thiserror::Error;

/// A place in the table: the top, or a port or a link by its place in its array, counted from 1.
///
/// It is printed as in the line of a fault: `top`, `port 1`, `link 1`.
#[derive(Clone, Copy, Debug, PartialEq, Eq)]
pub enum At {
    Top,
    Port(usize),
    Link(usize),
}

/// A key of the table, printed as it is written there.
#[derive(Clone, Copy, Debug, PartialEq, Eq)]
pub enum Key {
    Version,
    Constant,
    Latency,
    Port,
    Link,
    Id,
    Mbit,
    Buffer,
    MaxDelay,
    From,
    To,
    Bag,
    Jitter,
    MaxSize,
    Priority,
    Police,
}

/// Why a table is refused, by the numbers of the printed codes, C1 to C14; [`read`](crate::read) has the order in which these are looked for.
/// Each is printed as its name.
#[derive(Clone, Copy, Debug, PartialEq, Eq, Error)]
pub enum TableFault {
    /// C1: out of memory.
    #[error("Memory")]
    Memory,
    /// C2: the bytes are not UTF-8, or no TOML text.
    #[error("Toml")]
    Toml,
    /// C3: a key that has no meaning at this place.
    #[error("UnknownKey")]
    UnknownKey(At),
    /// C4: a required key is missing.
    #[error("MissingKey")]
    MissingKey(At, Key),
    /// C5: the key's value is of another kind.
    #[error("Kind")]
    Kind(At, Key),
    /// C6: the key's value is of the right kind and out of its range.
    #[error("Range")]
    Range(At, Key),
    /// C7: the constant field is not eight hexadecimal digits, or its first byte is no group address.
    #[error("Constant")]
    Constant,
    /// C8: an earlier port has this number.
    #[error("TwicePort")]
    TwicePort(At),
    /// C9: an earlier link has this number.
    #[error("TwiceLink")]
    TwiceLink(At),
    /// C10: a link comes from, or leads to, a port that is not there.
    #[error("NoSuchPort")]
    NoSuchPort(At),
    /// C11: a link leads nowhere.
    #[error("ToEmpty")]
    ToEmpty(At),
    /// C12: a link leads to a port twice.
    #[error("ToTwice")]
    ToTwice(At),
    /// C13: a link leads to the port that it comes from.
    #[error("ToOwnPort")]
    ToOwnPort(At),
    /// C14: more ports, or more links, than a table may have.
    #[error("TooMany")]
    TooMany(Key),
}

impl Key {
    /// Returns the key as it is written in the table. O(1).
    pub fn as_str(self) -> &'static str
        ensures { result.now ≡ key_text self }
    {
        match self {
            Key::Version => "version",
            Key::Constant => "constant",
            Key::Latency => "latency_us",
            Key::Port => "port",
            Key::Link => "link",
            Key::Id => "id",
            Key::Mbit => "mbit",
            Key::Buffer => "buffer",
            Key::MaxDelay => "max_delay_us",
            Key::From => "from",
            Key::To => "to",
            Key::Bag => "bag_ms",
            Key::Jitter => "jitter_us",
            Key::MaxSize => "max_size",
            Key::Priority => "priority",
            Key::Police => "police",
        }
    }
}

impl fmt::Display for Key {
    ghost use Rattle.std.specs.Prelude.{Some};
    ghost use Rattle.afdx_table.specs.Names.{key_text};

    ghost output = { λ key. Some (key_text key) };

    fn fmt<W: fmt::Write>(&self, f: &mut fmt::Formatter<W>) -> fmt::Result {
        f.write_str(self.as_str())
    }
}

impl fmt::Display for At {
    ghost use Rattle.std.specs.Prelude.{Some};
    ghost use Rattle.afdx_table.specs.Names.{place_text};

    ghost output = { λ at. Some (place_text at) };

    fn fmt<W: fmt::Write>(&self, f: &mut fmt::Formatter<W>) -> fmt::Result {
        match self {
            At::Top => f.write_str("top"),
            At::Port(number) => write!(f, "port {number}"),
            At::Link(number) => write!(f, "link {number}"),
        }
    }
}

impl From<AllocError> for TableFault {
    ghost from_gives = { λ _ fault. fault ≡ Memory };

    fn from(_error: AllocError) -> TableFault {
        TableFault::Memory
    }
}
