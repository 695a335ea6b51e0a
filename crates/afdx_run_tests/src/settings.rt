//! Tables as rows of data, and plans of them.

use afdx_load::check;
use afdx_samples::{Link, Port, double, later, mixed, narrow, single, slow, table};
use afdx_session::Plan;
use afdx_table::{Table, read};
use std::alloc::{AllocError, Global};
use std::test::*;

/// What a table has: one of the samples, or these ports and links.
#[derive(Clone, Copy)]
pub(crate) enum Content {
    Single,
    Double(Port),
    Mixed,
    Narrow,
    Slow,
    Rows(&'static [Port], &'static [Link]),
}

/// A table, the latency in microseconds that it states, and whether it is checked.
#[derive(Clone, Copy)]
pub(crate) struct Setting {
    pub(crate) content: Content,
    pub(crate) latency_us: Option<u32>,
    pub(crate) checked: bool,
}

/// Ports at 100 Mbit/s with much room, as the samples have them.
pub(crate) const ONE: Port = Port {
    id: 1,
    mbit: 100,
    buffer: 100_000,
    max_delay_us: 500_000,
};

pub(crate) const TWO: Port = Port { id: 2, ..ONE };

pub(crate) const THREE: Port = Port { id: 3, ..ONE };

/// A low link from port 1 to port 2, as the samples have them.
pub(crate) const LINK: Link = Link {
    id: 10,
    from: 1,
    to: "[2]",
    bag_ms: 1,
    jitter_us: 0,
    max_size: 1518,
    priority: "low",
    police: "",
};

/// Ports 1 and 2, and link 10 from 1 to 2.
pub(crate) const SINGLE: Setting = Setting {
    content: Content::Single,
    latency_us: None,
    checked: true,
};

pub(crate) const MIXED: Setting = Setting {
    content: Content::Mixed,
    ..SINGLE
};

/// Ports 1, 2 and 3, and links 10 from 1 and 20 from 2, both to 3.
pub(crate) const DOUBLE: Setting = Setting {
    content: Content::Double(THREE),
    ..SINGLE
};

pub(crate) const NARROW: Setting = Setting {
    content: Content::Narrow,
    ..SINGLE
};

pub(crate) const SLOW: Setting = Setting {
    content: Content::Slow,
    checked: false,
    ..SINGLE
};

fn rows_of(alloc: Global, content: Content) -> Result<String, AllocError> {
    match content {
        Content::Single => single(alloc),
        Content::Double(third) => double(alloc, third),
        Content::Mixed => mixed(alloc),
        Content::Narrow => narrow(alloc),
        Content::Slow => slow(alloc),
        Content::Rows(ports, links) => table(alloc, ports, links),
    }
}

fn text_of(alloc: Global, setting: Setting) -> Result<String, AllocError> {
    let rows = rows_of(alloc, setting.content)?;
    match setting.latency_us {
        Some(latency) => later(alloc, &rows, latency),
        None => Ok(rows),
    }
}

/// Reads the table of a setting.
fn table_of(alloc: Global, setting: Setting) -> Result<Table, Fail> {
    let text = text_of(alloc, setting)?;
    let table = read(alloc, text.as_bytes())?;
    Ok(table)
}

fn cleared(table: Table) -> Result<Plan, Fail> {
    let cleared = check(table).ok().ok_or("an accepted table")?;
    Ok(Plan::Cleared(cleared))
}

/// Makes the plan of a table, which has to be accepted if it is checked.
pub(crate) fn plan(alloc: Global, setting: Setting) -> Result<Plan, Fail> {
    let table = table_of(alloc, setting)?;
    if setting.checked {
        cleared(table)
    } else {
        Ok(Plan::Unchecked(table))
    }
}
