//! Rows that were worked out by hand: the bound is 22,720 ns and a frame's line time is 6,720 ns.

use crate::watching::{CUT, EXACT, Known, Sight, answer};
use std::alloc::Global;
use std::test::Fail;

const A: Sight = (1_000_000, b'A');

const B: Sight = (2_000_000, b'B');

const D: Sight = (3_000_000, b'D');

const A_LEFT: Sight = (1_006_720, b'A');

const B_LEFT: Sight = (2_006_720, b'B');

const D_LEFT: Sight = (3_006_720, b'D');

/// What came and what was recorded, and what is found out of it.
struct Row {
    name: &'static str,
    known: Known,
    came: &'static [Sight],
    left: &'static [Sight],
    want: &'static str,
}

/// Returns whether that is found out.
fn is_found_out(alloc: Global, row: &Row) -> Result<bool, Fail> {
    let text = answer(alloc, &row.known, row.came, row.left)?;
    Ok(text.as_str() == row.want)
}

// ---- one frame

/// With stamps of the ends of last bits.
const END_STAMPS: Known = Known { gap: 12, ..EXACT };

/// With stamps that may be off by so much.
const WITHIN_1: Known = Known {
    tolerance: 1,
    ..EXACT
};

const ONE_FRAME: &[Row] = &[
    Row {
        name: "at the bound",
        known: EXACT,
        came: &[A],
        left: &[(1_022_720, b'A')],
        want: "kept 1 after 0 before 0 unsure 0",
    },
    Row {
        name: "past the bound",
        known: EXACT,
        came: &[A],
        left: &[(1_022_721, b'A')],
        want: "late 1=1 22721 kept 0 after 0 before 0 unsure 0",
    },
    Row {
        name: "past the bound by the tolerance",
        known: WITHIN_1,
        came: &[A],
        left: &[(1_022_721, b'A')],
        want: "kept 1 after 0 before 0 unsure 0",
    },
    Row {
        name: "before the least delay",
        known: EXACT,
        came: &[A],
        left: &[(1_006_719, b'A')],
        want: "early 1=1 6719 kept 0 after 0 before 0 unsure 0",
    },
    Row {
        name: "the end of the last bit",
        known: END_STAMPS,
        came: &[A],
        left: &[(1_005_760, b'A')],
        want: "kept 1 after 0 before 0 unsure 0",
    },
    Row {
        name: "the end of the last bit as the instant at which the line is free",
        known: EXACT,
        came: &[A],
        left: &[(1_005_760, b'A')],
        want: "early 1=1 5760 kept 0 after 0 before 0 unsure 0",
    },
];

#[test]
fn bounds_of_one_frame(rt: HostRuntime) -> Result<(), Fail> {
    for row in ONE_FRAME {
        assert!(rt; is_found_out(rt.alloc(), row)?, "{}", row.name);
    }
    Ok(())
}

// ---- frames that do not leave once

/// The same bytes, one gap later.
const A_AGAIN: Sight = (2_000_000, b'A');

const NOT_ONCE: &[Row] = &[
    Row {
        name: "a frame that did not leave",
        known: EXACT,
        came: &[A, B, D],
        left: &[A_LEFT, D_LEFT],
        want: "missing 2 kept 2 after 0 before 0 unsure 0",
    },
    Row {
        name: "a frame that left twice",
        known: EXACT,
        came: &[A, B, D],
        left: &[A_LEFT, B_LEFT, (2_013_440, b'B'), D_LEFT],
        want: "extra 3 kept 3 after 0 before 0 unsure 0",
    },
    Row {
        name: "a byte that was turned",
        known: EXACT,
        came: &[A, B, D],
        left: &[A_LEFT, (2_006_720, b'X'), D_LEFT],
        want: "extra 2 missing 2 kept 2 after 0 before 0 unsure 0",
    },
    Row {
        name: "the first of two equal frames is missing",
        known: EXACT,
        came: &[A, A_AGAIN],
        left: &[(2_006_720, b'A')],
        want: "missing 1 kept 1 after 0 before 0 unsure 0",
    },
    Row {
        name: "the second of two equal frames is missing",
        known: EXACT,
        came: &[A, A_AGAIN],
        left: &[A_LEFT],
        want: "missing 2 kept 1 after 0 before 0 unsure 0",
    },
    Row {
        name: "a policed frame that was let through",
        known: EXACT,
        came: &[A, (1_500_000, b'P'), B],
        left: &[A_LEFT, (1_506_720, b'P'), B_LEFT],
        want: "extra 2 of 2 kept 2 after 0 before 0 unsure 0",
    },
    Row {
        name: "a policed frame between two equal ones",
        known: EXACT,
        came: &[A, (1_999_999, b'A'), A_AGAIN],
        left: &[A_LEFT, (2_006_720, b'A')],
        want: "kept 2 after 0 before 0 unsure 0",
    },
    Row {
        name: "frames out of order",
        known: EXACT,
        came: &[A, B],
        left: &[B_LEFT, (2_013_440, b'A')],
        want: "missing 1 extra 2 kept 1 after 0 before 0 unsure 0",
    },
];

#[test]
fn frames_that_do_not_leave_once(rt: HostRuntime) -> Result<(), Fail> {
    for row in NOT_ONCE {
        assert!(rt; is_found_out(rt.alloc(), row)?, "{}", row.name);
    }
    Ok(())
}

// ---- ends of recordings

/// Recordings that end just before, and at, the instant by which the last frame has to have left.
const SOON: Known = Known {
    until: Some(2_022_719),
    ..EXACT
};

const LATER: Known = Known {
    until: Some(2_022_720),
    ..EXACT
};

const ENDS: &[Row] = &[
    Row {
        name: "a record of a frame that may have come before",
        known: CUT,
        came: &[(1_030_000, b'A')],
        left: &[(1_022_719, b'X'), (1_036_720, b'A')],
        want: "kept 1 after 0 before 1 unsure 1",
    },
    Row {
        name: "a record a bound after the beginning",
        known: CUT,
        came: &[(1_030_000, b'A')],
        left: &[(1_022_720, b'X'), (1_036_720, b'A')],
        want: "extra 1 kept 1 after 0 before 0 unsure 1",
    },
    Row {
        name: "a record behind a pair",
        known: CUT,
        came: &[A],
        left: &[A_LEFT, (1_013_440, b'X')],
        want: "extra 2 kept 1 after 0 before 0 unsure 1",
    },
    Row {
        name: "a frame that may leave later",
        known: SOON,
        came: &[A, B],
        left: &[A_LEFT],
        want: "kept 1 after 1 before 0 unsure 0",
    },
    Row {
        name: "a frame that has to have left",
        known: LATER,
        came: &[A, B],
        left: &[A_LEFT],
        want: "missing 2 kept 1 after 0 before 0 unsure 0",
    },
];

#[test]
fn ends_of_recordings(rt: HostRuntime) -> Result<(), Fail> {
    for row in ENDS {
        assert!(rt; is_found_out(rt.alloc(), row)?, "{}", row.name);
    }
    Ok(())
}

// ---- levels that are not known

/// Frames half a gap, almost one and a half, and one and a half after the first.
const B_SOON: Sight = (1_500_000, b'B');

const C_SOON: Sight = (2_499_999, b'C');

const D_SOON: Sight = (2_500_000, b'D');

const B_SOON_LEFT: Sight = (1_506_720, b'B');

const C_SOON_LEFT: Sight = (2_506_719, b'C');

const D_SOON_LEFT: Sight = (2_506_720, b'D');

const LEVELS: &[Row] = &[
    Row {
        name: "an empty account at the beginning",
        known: CUT,
        came: &[A, B_SOON, C_SOON, D_SOON],
        left: &[B_SOON_LEFT, D_SOON_LEFT],
        want: "kept 2 after 0 before 0 unsure 2",
    },
    Row {
        name: "a frame that any account passes",
        known: CUT,
        came: &[A, B_SOON, C_SOON, D_SOON],
        left: &[B_SOON_LEFT],
        want: "missing 4 kept 1 after 0 before 0 unsure 2",
    },
    Row {
        name: "a frame that no account passes",
        known: CUT,
        came: &[A, B_SOON, C_SOON, D_SOON],
        left: &[B_SOON_LEFT, C_SOON_LEFT, D_SOON_LEFT],
        want: "extra 2 of 3 kept 2 after 0 before 0 unsure 2",
    },
    Row {
        name: "two frames of which an account passes one",
        known: CUT,
        came: &[A, B_SOON, D_SOON],
        left: &[A_LEFT, B_SOON_LEFT, D_SOON_LEFT],
        want: "extra 2 of 2 kept 2 after 0 before 0 unsure 1",
    },
    Row {
        name: "a full account at the beginning",
        known: EXACT,
        came: &[A, B_SOON, C_SOON, D_SOON],
        left: &[B_SOON_LEFT, D_SOON_LEFT],
        want: "missing 1 extra 1 of 2 extra 2 of 4 missing 3 kept 0 after 0 before 0 unsure 0",
    },
];

#[test]
fn levels_that_are_not_known(rt: HostRuntime) -> Result<(), Fail> {
    for row in LEVELS {
        assert!(rt; is_found_out(rt.alloc(), row)?, "{}", row.name);
    }
    Ok(())
}

// ---- noise at the account's edge

const WITHIN_24: Known = Known {
    tolerance: 24,
    ..EXACT
};

const WITHIN_25: Known = Known {
    tolerance: 25,
    ..EXACT
};

/// A frame 50 ns before the gap has passed.
const EDGE: Sight = (1_999_950, b'B');

const EDGE_LEFT: Sight = (2_006_670, b'B');

const NOISE: &[Row] = &[
    Row {
        name: "a frame too early by exact stamps",
        known: EXACT,
        came: &[A, EDGE],
        left: &[A_LEFT, EDGE_LEFT],
        want: "extra 2 of 2 kept 1 after 0 before 0 unsure 0",
    },
    Row {
        name: "a frame too early by more than twice the tolerance",
        known: WITHIN_24,
        came: &[A, EDGE],
        left: &[A_LEFT, EDGE_LEFT],
        want: "extra 2 of 2 kept 1 after 0 before 0 unsure 0",
    },
    Row {
        name: "a frame that may have been passed",
        known: WITHIN_25,
        came: &[A, EDGE],
        left: &[A_LEFT, EDGE_LEFT],
        want: "kept 2 after 0 before 0 unsure 1",
    },
    Row {
        name: "a frame that may have been policed",
        known: WITHIN_25,
        came: &[A, EDGE],
        left: &[A_LEFT],
        want: "kept 1 after 0 before 0 unsure 1",
    },
];

#[test]
fn noise_at_the_edge(rt: HostRuntime) -> Result<(), Fail> {
    for row in NOISE {
        assert!(rt; is_found_out(rt.alloc(), row)?, "{}", row.name);
    }
    Ok(())
}
