//! Why a network is refused, and where.

ghost use Rattle.std.specs.Prelude.{◌≡◌};
ghost use Rattle.afdx_wiring.specs.Names.{key_text};

use afdx_load::LoadFault;
use std::alloc::{AllocError, AllocFailed};
use std::fmt;

/// A place in the network file: the top, or a switch or a wire by its place in its array, counted from 1.
///
/// It is printed as in the line of a fault: `top`, `switch 1`, `wire 1`.
#[derive(Clone, Copy, Debug, PartialEq, Eq)]
pub enum At {
    Top,
    Switch(usize),
    Wire(usize),
}

/// A key of the network file, printed as it is written there.
#[derive(Clone, Copy, Debug, PartialEq, Eq)]
pub enum Key {
    Version,
    OneLine,
    Switch,
    Wire,
    Name,
    Table,
    LeastLatency,
    From,
    To,
    Delay,
    Down,
}

/// Why a network is refused. A wire is named by its place in the file, counted from 1; a switch by its place, counted from 0,
/// under which its name is.
#[derive(Clone, Copy, Debug, PartialEq, Eq)]
pub enum NetworkFault {
    /// Out of memory.
    Memory,
    /// G1: the bytes are not UTF-8, or no TOML text.
    Toml,
    /// G2: a key that has no meaning at this place.
    UnknownKey(At),
    /// G2: a required key is missing.
    MissingKey(At, Key),
    /// G2: the key's value is of another kind.
    Kind(At, Key),
    /// G2: the key's value is of the right kind and out of its range.
    Range(At, Key),
    /// G3: an earlier switch has this name.
    TwiceSwitch(At),
    /// G3: a wire's end names a switch that is not there.
    NoSuchSwitch(At),
    /// G3: an earlier wire comes from this port.
    TwiceFrom(At),
    /// G3: an earlier wire goes to this port.
    TwiceTo(At),
    /// G3: a wire goes to the port that it comes from.
    OwnPort(At),
    /// G3: a wire's end names a port that is not in its switch's table.
    NoSuchPort(At),
    /// G3: the least latency of the switch at this place, from 0, is said to be above its table's latency.
    Latency(usize),
    /// L1 to L4: the load of the table of the switch at this place, from 0, is not accepted with latencies that may differ as
    /// the network file says, and this is its first fault.
    Load(usize, LoadFault),
    /// G4: the tables at both ends have two constant fields.
    Constant(At),
    /// G4: the ports at both ends have two speeds.
    Speed(At),
    /// G5: the second table has no row for a link that leads to the wire.
    NoRow(At, u16),
    /// G6: the second table's row has the link come in at another port.
    From(At, u16),
    /// G7: the rows differ in their greatest size.
    Size(At, u16),
    /// G7: they differ in their gap.
    Bag(At, u16),
    /// G7: they differ in their policing.
    Police(At, u16),
    /// G8: the way back from this switch's row of the link ends at a wire on which it does not come, or nowhere.
    NoSource(usize, u16),
    /// G9: two end systems' ports feed one number.
    TwiceSource(u16),
    /// J1: a row's jitter is not enough.
    Jitter(Short),
    /// J2: no jitter that a table can have is enough.
    NoJitter(Short),
}

/// A row's jitter, and what it needs, in whole microseconds.
#[derive(Clone, Copy, Debug, PartialEq, Eq)]
pub struct Short {
    /// The place of the switch, counted from 0.
    pub switch: usize,
    /// The number of the link.
    pub link: u16,
    /// What it needs.
    pub need: u64,
    /// What it has.
    pub has: u64,
}

impl Key {
    /// Returns the key as it is written in the network file. O(1).
    pub fn as_str(self) -> &'static str
        ensures { result.now ≡ key_text self }
    {
        match self {
            Key::Version => "version",
            Key::OneLine => "one_line",
            Key::Switch => "switch",
            Key::Wire => "wire",
            Key::Name => "name",
            Key::Table => "table",
            Key::LeastLatency => "least_latency_us",
            Key::From => "from",
            Key::To => "to",
            Key::Delay => "delay_ns",
            Key::Down => "down",
        }
    }
}

impl fmt::Display for Key {
    ghost use Rattle.std.specs.Prelude.{Some};
    ghost use Rattle.afdx_wiring.specs.Names.{key_text};

    ghost output = { λ key. Some (key_text key) };

    fn fmt<W: fmt::Write>(&self, f: &mut fmt::Formatter<W>) -> fmt::Result {
        f.write_str(self.as_str())
    }
}

impl fmt::Display for At {
    ghost use Rattle.std.specs.Prelude.{Some};
    ghost use Rattle.afdx_wiring.specs.Names.{place_text};

    ghost output = { λ at. Some (place_text at) };

    fn fmt<W: fmt::Write>(&self, f: &mut fmt::Formatter<W>) -> fmt::Result {
        match self {
            At::Top => f.write_str("top"),
            At::Switch(number) => write!(f, "switch {number}"),
            At::Wire(number) => write!(f, "wire {number}"),
        }
    }
}

impl From<AllocError> for NetworkFault {
    ghost use Rattle.afdx_wiring.specs.declared.fault.NetworkFault.TheVariants.{Memory};

    ghost from_gives = { λ _ fault. fault ≡ Memory };

    fn from(_error: AllocError) -> NetworkFault {
        NetworkFault::Memory
    }
}

impl<T: Drop> From<AllocFailed<T>> for NetworkFault {
    ghost use Rattle.afdx_wiring.specs.declared.fault.NetworkFault.TheVariants.{Memory};

    ghost from_gives = { λ _ fault. fault ≡ Memory };

    fn from(_error: AllocFailed<T>) -> NetworkFault {
        NetworkFault::Memory
    }
}
