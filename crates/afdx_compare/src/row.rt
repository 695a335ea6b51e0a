//! What speaks against a switch, as a row.

ghost use Rattle.std.specs.Prelude.{◌≡◌};
ghost use Rattle.afdx_compare.specs.Rows.{link_row, row_of, foreign_row, instant_of};

use afdx_pairing::{Event, Mark, Pair};

/// What a row says of its frame or record.
#[derive(Clone, Copy, Debug, PartialEq, Eq)]
pub(crate) enum Kind {
    /// The frame did not leave.
    Missing,
    /// The record is of no passed frame of its link.
    Extra,
    /// The record left before the frame can have left.
    Early,
    /// It left past the frame's bound.
    Late,
    /// It is of no link that leads to its port.
    Foreign,
}

/// A row, as far as there is what it has; all times are nanoseconds.
#[derive(Clone, Copy, Debug, PartialEq, Eq)]
pub(crate) struct Row {
    pub(crate) link: Option<u16>,
    pub(crate) kind: Kind,
    /// The frame that came.
    pub(crate) came: Option<Mark>,
    /// The record that left.
    pub(crate) left: Option<Mark>,
    pub(crate) delay: Option<u128>,
    /// The port's bound for the link.
    pub(crate) bound: Option<u128>,
}

/// Makes the row of a link with a bound.
fn link_row(
    link: u16,
    bound: u64,
    kind: Kind,
    came: Option<Mark>,
    left: Option<Mark>,
    delay: Option<u128>,
) -> Row
    ensures { result ≡ link_row link bound kind came left delay }
{
    Row {
        link: Some(link),
        kind,
        came,
        left,
        delay,
        bound: Some(u128::from(bound)),
    }
}

/// Makes the row of a pair of a link.
fn pair_row(link: u16, bound: u64, kind: Kind, pair: Pair) -> Row
    ensures { result ≡ link_row link bound kind (Some pair.came) (Some pair.left) (Some pair.delay) }
{
    link_row(
        link,
        bound,
        kind,
        Some(pair.came),
        Some(pair.left),
        Some(pair.delay),
    )
}

impl Row {
    /// Makes the row of what was found of a link, if it speaks against the switch.
    pub(crate) fn of_event(link: u16, bound: u64, event: &Event) -> Option<Row>
        ensures { result ≡ row_of link bound event.now }
    {
        match *event {
            Event::Early(pair) => Some(pair_row(link, bound, Kind::Early, pair)),
            Event::Late(pair) => Some(pair_row(link, bound, Kind::Late, pair)),
            Event::Missing(came) => Some(link_row(
                link,
                bound,
                Kind::Missing,
                Some(came),
                None,
                None,
            )),
            Event::Extra(left, policed) => Some(link_row(
                link,
                bound,
                Kind::Extra,
                policed,
                Some(left),
                None,
            )),
            Event::Kept(_) | Event::After(_) | Event::Before(_) => None,
        }
    }

    /// Makes the row of a record of no link that leads to its port.
    pub(crate) fn foreign(left: Mark) -> Row
        ensures { result ≡ foreign_row left }
    {
        Row {
            link: None,
            kind: Kind::Foreign,
            came: None,
            left: Some(left),
            delay: None,
            bound: None,
        }
    }

    /// Returns the instant by which it is in order, in nanoseconds: that of the record that left or, if none left, of the frame.
    pub(crate) fn instant(&self) -> u64
        ensures { result ≡ instant_of self.now }
    {
        match self.left.or(self.came) {
            Some(mark) => mark.stamp.ns(),
            None => 0,
        }
    }
}
