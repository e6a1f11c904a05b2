use amounts::amount::{Kwh, Price};
use amounts::fault::Fault;
use amounts::layer::Layer;
use amounts::wire::WirePrice;
use rules::any_rule::{Spread, Unshared, apportion, spread_of};
use rules::fault::RuleFault;
use rules::marginal_rule::MarginalRule;
use rules::price_rule::{CountedAction, DayPrices, PriceRule};
use rules::quoted_rule::QuotedRule;
use rules::running_rule::RunningRule;
use rules::sharing_rule::SharingRule;
use rules::unit_rule::UnitRule;
use std::process::Abort;

const REFUSED: RuleFault = RuleFault::QuestionOutOfLimit;

fn action(quantity: i64, price: i64) -> CountedAction {
    CountedAction {
        quantity: Kwh(quantity),
        price: Price(price),
    }
}

// Six averages of 20,000 and a last one.
fn averages(last: i64) -> [Price; 7] {
    let usual = Price(20_000);
    [usual, usual, usual, usual, usual, usual, Price(last)]
}

fn prices_of(average: i64, buy: i64, sell: i64) -> DayPrices {
    DayPrices {
        average: Price(average),
        buy: Price(buy),
        sell: Price(sell),
    }
}

// Two actions, and a single one, by the marginal rule; and none, where the mean of the seven preceding averages is taken.
#[test]
fn marginal_prices(rt: HostRuntime) {
    for (default, first, second, average, buy, sell) in [
        (0, (1, 10), (1, 11), 11, 11, 10),
        (100, (60, 21_000), (60, 24_000), 22_500, 24_000, 21_000),
        (100, (60, 21_000), (60, 21_000), 21_000, 21_100, 20_900),
        (100_000, (1, 0), (1_000_000, 0), 0, 100_000, -100_000),
        (
            100_000,
            (1_000_000, 1_000_000),
            (1, 0),
            999_999,
            1_099_999,
            0,
        ),
        (0, (2, 10), (1, 11), 10, 11, 10),
    ] {
        let counted = [action(first.0, first.1), action(second.0, second.1)];
        let prices = MarginalRule::new(Price(default)).prices(&counted, &averages(0));
        assert_eq!(rt; prices, Ok(prices_of(average, buy, sell)));
    }
    let rule = MarginalRule::new(Price(100));
    assert_eq!(rt;
        rule.prices(&[], &averages(21_000)),
        Ok(prices_of(20_143, 20_243, 20_043))
    );
    assert_eq!(rt;
        rule.prices(&[action(60, 21_000)], &averages(0)),
        Ok(prices_of(21_000, 21_100, 20_900))
    );
}

// As many and as large actions as a rule takes, and one more.
#[test]
fn most_actions(rt: HostRuntime) {
    let counted = [action(1_000_000, 1_000_000); 33];
    let rule = MarginalRule::new(Price(100_000));
    assert_eq!(rt;
        rule.prices(&counted[..32], &averages(0)),
        Ok(prices_of(1_000_000, 1_100_000, 900_000))
    );
    assert_eq!(rt; rule.prices(&counted, &averages(0)), Err(REFUSED));
    let quoted = QuotedRule::new(Price(7), Price(2));
    assert_eq!(rt;
        quoted.prices(&counted[..32], &averages(0)),
        Ok(prices_of(7, 9, 5))
    );
    assert_eq!(rt; quoted.prices(&counted, &averages(0)), Err(REFUSED));
}

// A figure just outside its limits, among others within; too few and too many averages.
#[test]
fn refused_price_questions(rt: HostRuntime) {
    for (quantity, price, last, within) in [
        (1, 0, 0, true),
        (1_000_000, 1_000_000, 1_000_000, true),
        (0, 5, 5, false),
        (1_000_001, 5, 5, false),
        (5, -1, 5, false),
        (5, 1_000_001, 5, false),
        (5, 5, -1, false),
        (5, 5, 1_000_001, false),
    ] {
        let counted = [action(5, 5), action(quantity, price)];
        let by_marginal = MarginalRule::new(Price(0)).prices(&counted, &averages(last));
        let by_quoted = QuotedRule::new(Price(0), Price(0)).prices(&counted, &averages(last));
        assert_eq!(rt; (by_marginal.is_ok(), by_quoted.is_ok()), (within, within));
        assert_eq!(rt; by_marginal == Err(REFUSED), !within);
        assert_eq!(rt; by_quoted == Err(REFUSED), !within);
    }
    let eight = [Price(5); 8];
    assert_eq!(rt;
        MarginalRule::new(Price(0)).prices(&[], &eight[..6]),
        Err(REFUSED)
    );
    assert_eq!(rt;
        MarginalRule::new(Price(0)).prices(&[], &eight),
        Err(REFUSED)
    );
    assert_eq!(rt;
        QuotedRule::new(Price(0), Price(0)).prices(&[], &eight[..6]),
        Err(REFUSED)
    );
    assert_eq!(rt;
        QuotedRule::new(Price(0), Price(0)).prices(&[], &eight),
        Err(REFUSED)
    );
}

// Rules made of prices within their limits, and of prices that the check refuses.
#[test]
fn made_rules(rt: HostRuntime) {
    let refused = Err(RuleFault::PriceOutOfLimit);
    for (fixed, default, check, made, average, buy, sell) in [
        (0, 0, Ok(()), 0, 0, 0, 0),
        (
            1_000_000,
            100_000,
            Ok(()),
            100_000,
            1_000_000,
            1_100_000,
            900_000,
        ),
        (0, 100_000, Ok(()), 100_000, 0, 100_000, -100_000),
        (20_000, 100_001, refused, 0, 0, 0, 0),
        (20_000, -1, refused, 0, 0, 0, 0),
        (1_000_001, 100, refused, 0, 0, 0, 0),
        (-1, 100, refused, 0, 0, 0, 0),
    ] {
        let rule = QuotedRule::new(Price(fixed), Price(default));
        let tried = QuotedRule::try_new(Price(fixed), Price(default));
        assert_eq!(rt;
            tried.map(|rule| rule.default_price()),
            check.map(|_| Price(made))
        );
        assert_eq!(rt; QuotedRule::check(Price(fixed), Price(default)), check);
        assert_eq!(rt; rule.default_price(), Price(made));
        assert_eq!(rt;
            rule.prices(&[], &averages(0)),
            Ok(prices_of(average, buy, sell))
        );
    }
    for (default, made, check) in [
        (0, 0, Ok(())),
        (100_000, 100_000, Ok(())),
        (100_001, 0, refused),
        (-1, 0, refused),
    ] {
        let tried = MarginalRule::try_new(Price(default));
        assert_eq!(rt;
            tried.map(|rule| rule.default_price()),
            check.map(|_| Price(made))
        );
        assert_eq!(rt; MarginalRule::check(Price(default)), check);
        assert_eq!(rt;
            MarginalRule::new(Price(default)).default_price(),
            Price(made)
        );
    }
    assert_eq!(rt;
        (RuleFault::PriceOutOfLimit.number(), REFUSED.number()),
        (11, 50)
    );
    assert_eq!(rt; RuleFault::PriceOutOfLimit.layer(), Layer::Rule);
    assert_eq!(rt; REFUSED.layer(), Layer::Rule);
}

// Two weights: the shares and the remainder by the unit rule, then by the running rule.
#[test]
fn shares_of_two(rt: HostRuntime) {
    for (amount, weights, by_unit, unit_rest, by_running, running_rest) in [
        (
            -2_205_360,
            [1_900, 1_200],
            [-1_350_900, -853_200],
            -1_260,
            [-1_351_672, -853_688],
            0,
        ),
        (5, [1, 1], [2, 2], 1, [2, 3], 0),
        (-5, [1, 1], [-2, -2], -1, [-2, -3], 0),
        (5, [0, 0], [0, 0], 5, [0, 0], 5),
        (5, [0, 4], [0, 4], 1, [0, 5], 0),
        (0, [3, 4], [0, 0], 0, [0, 0], 0),
        (i64::MAX, [0, 0], [0, 0], i64::MAX, [0, 0], i64::MAX),
        (i64::MIN, [0, 1], [0, i64::MIN], 0, [0, i64::MIN], 0),
        (
            i64::MIN,
            [1, 1],
            [i64::MIN / 2, i64::MIN / 2],
            0,
            [i64::MIN / 2, i64::MIN / 2],
            0,
        ),
    ] {
        let mut shares = [7, 7];
        assert_eq!(rt;
            UnitRule.share(amount, &weights, &mut shares),
            Ok(unit_rest)
        );
        assert_eq!(rt; shares, by_unit);
        let mut shares = [7, 7];
        assert_eq!(rt;
            RunningRule.share(amount, &weights, &mut shares),
            Ok(running_rest)
        );
        assert_eq!(rt; shares, by_running);
    }
}

// A single weight, the fewest that a rule takes.
#[test]
fn share_of_one(rt: HostRuntime) {
    let mut share = [7];
    assert_eq!(rt; UnitRule.share(-5, &[3], &mut share), Ok(-2));
    assert_eq!(rt; share, [-3]);
    assert_eq!(rt; RunningRule.share(-5, &[3], &mut share), Ok(0));
    assert_eq!(rt; share, [-5]);
}

// The ends of 64 bits over the largest sum of weights, 64,000,000.
#[test]
fn shares_at_the_ends(rt: HostRuntime) {
    let weights = [2_000_000; 32];
    let mut shares = [0; 32];
    assert_eq!(rt;
        UnitRule.share(i64::MAX, &weights, &mut shares),
        Ok(54_775_807)
    );
    assert_eq!(rt; shares, [288_230_376_150_000_000; 32]);
    assert_eq!(rt;
        UnitRule.share(i64::MIN, &weights, &mut shares),
        Ok(-54_775_808)
    );
    assert_eq!(rt; shares, [-288_230_376_150_000_000; 32]);
    assert_eq!(rt; RunningRule.share(i64::MIN, &weights, &mut shares), Ok(0));
    assert_eq!(rt; shares, [-288_230_376_151_711_744; 32]);
    assert_eq!(rt; RunningRule.share(i64::MAX, &weights, &mut shares), Ok(0));
    let mut expected = [288_230_376_151_711_744; 32];
    expected[0] = 288_230_376_151_711_743;
    assert_eq!(rt; shares, expected);
}

// Both rules refuse, and leave the slice as it was.
fn refused(rt: &impl Abort, weights: &[u32], shares: &mut [i64]) {
    assert_eq!(rt; UnitRule.share(66, weights, shares), Err(REFUSED));
    assert_eq!(rt; RunningRule.share(66, weights, shares), Err(REFUSED));
    for share in shares.iter() {
        assert_eq!(rt; *share, 7);
    }
}

// Too few and too many weights or places, and a weight beyond its limit.
#[test]
fn refused_sharing_questions(rt: HostRuntime) {
    refused(&rt, &[], &mut []);
    refused(&rt, &[], &mut [7]);
    refused(&rt, &[1], &mut []);
    refused(&rt, &[1], &mut [7, 7]);
    refused(&rt, &[1, 1], &mut [7]);
    refused(&rt, &[1; 32], &mut [7; 33]);
    refused(&rt, &[1; 33], &mut [7; 32]);
    refused(&rt, &[1; 33], &mut [7; 33]);
    refused(&rt, &[1, 2_000_001], &mut [7, 7]);
    refused(&rt, &[2_000_001, 1], &mut [7, 7]);
}

// Code that knows only the traits, over both rules of each kind.
#[test]
fn any_rule(rt: HostRuntime) {
    let counted = [action(20, 21_000), action(60, 25_000)];
    let spread = Spread {
        default: WirePrice(100),
        average: WirePrice(24_000),
        above: WirePrice(1_000),
        below: WirePrice(3_000),
    };
    assert_eq!(rt;
        spread_of(&MarginalRule::new(Price(100)), &counted, &averages(0)),
        Ok(spread)
    );
    let spread = Spread {
        default: WirePrice(100),
        average: WirePrice(30),
        above: WirePrice(100),
        below: WirePrice(100),
    };
    assert_eq!(rt;
        spread_of(
            &QuotedRule::new(Price(30), Price(100)),
            &counted,
            &averages(0),
        ),
        Ok(spread)
    );
    assert_eq!(rt;
        spread_of(&QuotedRule::new(Price(30), Price(100)), &counted, &[]),
        Err(REFUSED)
    );
    let mut shares = [7, 7];
    assert_eq!(rt;
        apportion(&UnitRule, -2_205_360, &[1_900, 1_200], &mut shares),
        Ok(Unshared::Part(-1_260))
    );
    assert_eq!(rt; shares, [-1_350_900, -853_200]);
    assert_eq!(rt;
        apportion(&RunningRule, -2_205_360, &[1_900, 1_200], &mut shares),
        Ok(Unshared::Part(0))
    );
    assert_eq!(rt; shares, [-1_351_672, -853_688]);
    assert_eq!(rt;
        apportion(&UnitRule, i64::MAX, &[0, 0], &mut shares),
        Ok(Unshared::Everything)
    );
    assert_eq!(rt; apportion(&RunningRule, 5, &[0], &mut shares), Err(REFUSED));
    assert_eq!(rt; shares, [0, 0]);
}
