//! Values from outside: line times of IEEE 802.3 and the edges of pcap's stamps.

use afdx_units::{Bag, Speed, Stamp, cost, size};

#[test]
fn line_times(rt: HostRuntime) {
    // example of afdx_units
    for (speed, captured, want) in [
        (Speed::Hundred, 60, (64, 80, 6_720)),
        (Speed::Hundred, 1514, (1518, 80, 123_040)),
        (Speed::Ten, 1514, (1518, 800, 1_230_400)),
        (Speed::Thousand, 60, (64, 8, 672)),
    ] {
        let size = size(captured);
        assert_eq!(rt;
            (size, speed.tick(), cost(speed, size)),
            want,
            "{captured} bytes"
        );
    }
    // end of example
}

/// Nanoseconds, seconds, nanoseconds of the second, and whether no capture has the instant.
type Parts = (u64, u32, u32, bool);

/// Returns the parts of the instant that lies so many nanoseconds after another one. Returns none if either is no instant, or if
/// its seconds and its nanoseconds do not make it again.
fn parts(ns: u64, more: u64) -> Option<Parts> {
    let stamp = Stamp::from_ns(ns)?.plus(more)?;
    if Stamp::new(stamp.sec(), stamp.nanos()) != Some(stamp) {
        return None;
    }
    Some((stamp.ns(), stamp.sec(), stamp.nanos(), stamp.late()))
}

#[test]
fn first_and_last_instants(rt: HostRuntime) {
    for (ns, more, want) in [
        (0, 0, Some((0, 0, 0, false))),
        (
            4_294_967_294_999_999_999,
            0,
            Some((4_294_967_294_999_999_999, 4_294_967_294, 999_999_999, false)),
        ),
        (
            4_294_967_294_999_999_999,
            6_720,
            Some((4_294_967_295_000_006_719, 4_294_967_295, 6_719, true)),
        ),
        (
            4_294_967_295_999_999_999,
            0,
            Some((4_294_967_295_999_999_999, 4_294_967_295, 999_999_999, true)),
        ),
        (4_294_967_295_999_999_999, 1, None),
        (4_294_967_296_000_000_000, 0, None),
    ] {
        assert_eq!(rt; parts(ns, more), want, "{more} after {ns}");
    }
}

#[test]
fn ends_of_instants_and_a_second_of_nanoseconds(rt: HostRuntime) {
    assert_eq!(rt;
        (
            Stamp::ZERO.ns(),
            Stamp::LAST.ns(),
            Stamp::new(0, 1_000_000_000)
        ),
        (0, 4_294_967_295_999_999_999, None)
    );
}

#[test]
fn instants_that_saturate(rt: HostRuntime) {
    for (ns, want) in [
        (0, 0),
        (4_294_967_295_999_999_999, 4_294_967_295_999_999_999),
        (4_294_967_296_000_000_000, 4_294_967_295_999_999_999),
        (1 << 64, 4_294_967_295_999_999_999),
    ] {
        assert_eq!(rt; Stamp::from_ns_saturating(ns).ns(), want, "{ns} ns");
    }
}

#[test]
fn gaps(rt: HostRuntime) {
    for ms in 0..130 {
        let want = if [1, 2, 4, 8, 16, 32, 64, 128].contains(&ms) {
            Some((ms, ms * 1_000_000))
        } else {
            None
        };
        let gap = Bag::from_ms(ms).map(|bag| (bag.ms(), bag.ns()));
        assert_eq!(rt; gap, want, "{ms} ms");
    }
}
