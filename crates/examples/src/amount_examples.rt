use amounts::amount::{Amount, Kwh, Price, Ticks};
use amounts::rounding::{half_up, toward_zero};

// Each limit, just inside and just outside.
#[test]
fn limits(rt: HostRuntime) {
    for (quantity, figure, traded, reconciled) in [
        (-1_000_001, false, false, false),
        (-1_000_000, false, false, true),
        (-1, false, false, true),
        (0, true, false, false),
        (1, true, true, true),
        (1_000_000, true, true, true),
        (1_000_001, false, false, false),
    ] {
        assert_eq!(rt; Kwh(quantity).is_figure(), figure);
        assert_eq!(rt; Kwh(quantity).is_quantity(), traded);
        assert_eq!(rt; Kwh(quantity).is_reconciliation(), reconciled);
    }
    for (price, offer, default) in [
        (-1, false, false),
        (0, true, true),
        (100_000, true, true),
        (100_001, true, false),
        (1_000_000, true, false),
        (1_000_001, false, false),
    ] {
        assert_eq!(rt; Price(price).is_in_limit(), offer);
        assert_eq!(rt; Price(price).is_default(), default);
    }
    for (balance, within) in [
        (-100_000_000_000_000_001, false),
        (-100_000_000_000_000_000, true),
        (100_000_000_000_000_000, true),
        (100_000_000_000_000_001, false),
    ] {
        assert_eq!(rt; Ticks(balance).is_balance(), within);
    }
}

// A quotient on both sides of zero and at a half: toward zero, and half up.
#[test]
fn roundings(rt: HostRuntime) {
    for (dividend, divisor, truncated, nearest) in [
        (24, 10, 2, 2),
        (25, 10, 2, 3),
        (26, 10, 2, 3),
        (-24, 10, -2, -2),
        (-25, 10, -2, -2),
        (-26, 10, -2, -3),
        (21, 2, 10, 11),
        (141_000, 7, 20_142, 20_143),
        (-2_205_360, 3_100, -711, -711),
        (i64::MAX, 1, i64::MAX, i64::MAX),
        (i64::MIN, 1, i64::MIN, i64::MIN),
        (i64::MAX, i64::MAX, 1, 1),
    ] {
        assert_eq!(rt; toward_zero(dividend, divisor), Some(truncated));
        assert_eq!(rt; half_up(dividend, divisor), Some(nearest));
    }
    for divisor in [0, -1, i64::MIN] {
        assert_eq!(rt; toward_zero(7, divisor), None);
        assert_eq!(rt; half_up(7, divisor), None);
    }
}

// Money from a quantity and a price, up to the ends of 64 bits.
#[test]
fn costs(rt: HostRuntime) {
    for (quantity, price, cost) in [
        (60, 21_000, Some(Ticks(1_260_000))),
        (-10, 20_900, Some(Ticks(-209_000))),
        (170, -100_000, Some(Ticks(-17_000_000))),
        (
            4_294_967_296,
            2_147_483_647,
            Some(Ticks(9_223_372_032_559_808_512)),
        ),
        (4_294_967_296, 2_147_483_648, None),
        (4_294_967_296, -2_147_483_648, Some(Ticks(i64::MIN))),
        (i64::MIN, -1, None),
    ] {
        assert_eq!(rt; Kwh(quantity).cost_at(Price(price)), cost);
    }
}

#[test]
fn sums(rt: HostRuntime) {
    assert_eq!(rt; Ticks(i64::MAX).checked_add(Ticks(1)), None);
    assert_eq!(rt;
        Ticks(i64::MAX).checked_add(Ticks(0)),
        Some(Ticks(i64::MAX))
    );
    assert_eq!(rt; Ticks(i64::MIN).checked_sub(Ticks(1)), None);
    assert_eq!(rt; Ticks(i64::MIN).checked_neg(), None);
    assert_eq!(rt; Ticks(-5).checked_neg(), Some(Ticks(5)));
    assert_eq!(rt; Kwh(1_000).checked_sub(Kwh(900)), Some(Kwh(100)));
    assert_eq!(rt; Kwh(i64::MIN).checked_add(Kwh(-1)), None);
    assert_eq!(rt; Price(21_000).checked_add(Price(100)), Some(Price(21_100)));
    assert_eq!(rt; Price(50).checked_sub(Price(100)), Some(Price(-50)));
}
