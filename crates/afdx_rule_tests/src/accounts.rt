//! Accounts by their calls, over frames whose answers were worked out by hand from the windows.

ghost use Rattle.std.specs.Prelude.{◌≡◌};

use afdx_account::{Account, ByteAccount, FrameAccount, Meter, early_by};
use afdx_units::{Bag, Police, Speed, Stamp};
use std::test::Fail;

/// Makes an account of BAG 1 ms, no jitter and frames of at most 1518 bytes.
fn by_bytes() -> ByteAccount
    ensures since { ⟦<ByteAccount as Meter>⟧.since result ≡ 0 }
    ensures rate { (⟦<ByteAccount as Meter>⟧.terms result).rate ≡ 1518 }
{
    ByteAccount::new(1518, Bag::Ms1, 0)
}

/// Checks that an account of 1,518,000,000 units is credited 1518 in each ns, that 64 bytes cost 64,000,000, and that a frame
/// that comes a nanosecond early is policed.
#[test]
fn an_account_by_bytes(rt: HostRuntime) -> Result<(), Fail> {
    let early = Stamp::from_ns(999_999).ok_or("an instant")?;
    let in_time = Stamp::from_ns(1_000_000).ok_or("an instant")?;
    let mut account = by_bytes();
    let terms = [account.cap(), account.rate(), account.price(64)];
    let full = account.level_at(Stamp::ZERO);
    let weight = account.weight(Speed::Hundred);
    let first = account.offer(Stamp::ZERO, 1518);
    let soon = [
        early_by(&account, Stamp::ZERO, 64),
        early_by(&account, Stamp::ZERO, 1518),
        early_by(&account, early, 1518),
    ];
    let second = account.offer(early, 1518);
    let third = account.offer(in_time, 1518);
    let empty = account.level_at(in_time);
    assert_eq!(rt;
        (terms, full, weight, soon, [first, second, third], empty),
        (
            [1_518_000_000, 1518, 64_000_000],
            1_518_000_000,
            21 * 80 * 128,
            [42_161, 1_000_000, 1],
            [true, false, true],
            0
        )
    );
    Ok(())
}

/// Checks that a frame of any size costs the gap, that a jitter of one gap lets two pass at once, and that the third comes a gap too early.
#[test]
fn an_account_by_frames(rt: HostRuntime) {
    let plain = FrameAccount::new(1518, Bag::Ms1, 0);
    // example of afdx_account
    let mut account = Account::new(Police::Frame, 1518, Bag::Ms1, 1_000_000);
    let terms = [account.cap(), account.rate(), account.price(64)];
    let weight = account.weight(Speed::Hundred);
    let first = account.offer(Stamp::ZERO, 64);
    let second = account.offer(Stamp::ZERO, 1518);
    let third = account.offer(Stamp::ZERO, 64);
    let soon = early_by(&account, Stamp::ZERO, 64);
    // end of example
    assert_eq!(rt;
        (plain.cap(), terms, weight, [first, second, third], soon),
        (
            1_000_000,
            [2_000_000, 1, 1_000_000],
            16 * 80 * 1538 * 128,
            [true, true, false],
            1_000_000
        )
    );
}
