//! Rows of a table.

/// A port as the table has it: Mbit/s, bytes of buffer, microseconds of delay.
#[derive(Clone, Copy)]
pub struct Port {
    pub id: u8,
    pub mbit: u32,
    pub buffer: u32,
    pub max_delay_us: u32,
}

/// A link as the table has it: milliseconds of gap, microseconds of jitter, bytes of the greatest size; the kind of its
/// policing, which is not stated if it is empty.
#[derive(Clone, Copy)]
pub struct Link {
    pub id: u16,
    pub from: u8,
    pub to: &'static str,
    pub bag_ms: u32,
    pub jitter_us: u32,
    pub max_size: u32,
    pub priority: &'static str,
    pub police: &'static str,
}

/// The low link of the worked tables, from port 1 to port 2: it asks for 326,430,720 parts of a line of 100 Mbit/s in each
/// nanosecond, and for a million times as many at once; its largest frame takes 123,040 ns there, of 2,048,000,000 parts each.
pub const LOW: Link = Link {
    id: 10,
    from: 1,
    to: "[2]",
    bag_ms: 1,
    jitter_us: 0,
    max_size: 1518,
    priority: "low",
    police: "",
};

/// The high link of the worked tables.
pub const HIGH: Link = Link {
    id: 12,
    priority: "high",
    ..LOW
};

/// The low link that is policed by frames: it asks for 251,985,920 parts.
pub const FRAMED: Link = Link {
    id: 13,
    police: "frame",
    ..LOW
};
