// What is proved of every price rule and of every sharing rule at once, from the traits alone.
ghost use Rattle.std.specs.Prelude.{◌≡◌, ◌<◌, length, pos, negsuc, ◌-ℤ◌, Ok, sum, unsigned_abs};
ghost use Rattle.rules.specs.AnyRule.{SpreadAnswer, Apportionment, apportioned, unshared_by, SharedByTheLaws};
ghost use Rattle.rules.specs.Prices.{is_price_question, Within};
ghost use Rattle.rules.specs.Sharing.{is_sharing_question};

use crate::fault::RuleFault;
use crate::price_rule::{CountedAction, DayPrices, PriceRule};
use crate::sharing_rule::SharingRule;
use crate::weights::total_weight;
use amounts::amount::Price;
use amounts::wire::WirePrice;

// The average, the distances of buy and sell from it, and the default price, none of them below 0.
#[derive(Clone, Copy, Debug, PartialEq, Eq)]
pub struct Spread {
    pub default: WirePrice,
    pub average: WirePrice,
    pub above: WirePrice,
    pub below: WirePrice,
}

// What remains of an amount that was shared. No `Option<i32>`: its `None` would read as nothing, and here it is all.
#[derive(Clone, Copy, Debug, PartialEq, Eq)]
pub enum Unshared {
    // All of it, since all weights are 0.
    Everything,
    // Less than the sum of the weights, either side of zero.
    Part(i32),
}

// The prices of any rule as distances.
pub fn spread_of<P: PriceRule>(
    rule: &P,
    counted: &[CountedAction],
    preceding: &[Price],
) -> Result<Spread, RuleFault>
    ensures { SpreadAnswer (is_price_question counted.now preceding.now) (P.PriceRule.default rule.now) (P.PriceRule.prices rule.now counted.now preceding.now) result }
{
    let DayPrices { average, buy, sell } = rule.prices(counted, preceding)?;
    Ok(Spread {
        default: distance(Price(0), rule.default_price()),
        average: distance(Price(0), average),
        above: distance(average, buy),
        below: distance(sell, average),
    })
}

// How far a price lies above another.
fn distance(low: Price, high: Price) -> WirePrice
    requires low { Within (negsuc 99999) (pos 1000000) low.0 }
    requires above { Within low.0 (pos 1100000) high.0 }
    ensures { pos result.0 ≡ high.0 -ℤ low.0 }
{
    // `as`, since it is proved to lose nothing, and `try_from` would bring an error that cannot be.
    WirePrice((high.0 - low.0) as u32)
}

// Shares an amount by any rule, and says what remains of it.
pub fn apportion<S: SharingRule>(
    rule: &S,
    amount: i64,
    weights: &[u32],
    into: &mut [i64],
) -> Result<Unshared, RuleFault>
    ensures value { ◌≡◌ {A = Apportionment} (result, into.new) (apportioned (is_sharing_question weights.now (length into.old)) (sum weights.now) (S.SharingRule.shares rule.now amount weights.now) (S.SharingRule.remainder rule.now amount weights.now) into.old) }
    ensures laws { (unshared : Unshared) → result ≡ Ok unshared → SharedByTheLaws amount weights.now (S.SharingRule.margin rule.now (sum weights.now)) into.new (S.SharingRule.remainder rule.now amount weights.now) }
{
    let remainder = rule.share(amount, weights, into)?;
    let total = total_weight(weights, into.len())?;
    Ok(unshared_by(total, remainder))
}

// What remains, by the sum of the weights.
fn unshared_by(total: u32, remainder: i64) -> Unshared
    requires { 0 < total → unsigned_abs remainder < 64000000 }
    ensures { result ≡ unshared_by total remainder }
{
    if total == 0 {
        return Unshared::Everything;
    }
    // `as`, since it is proved to lose nothing, and `try_from` would bring an error that cannot be.
    Unshared::Part(remainder as i32)
}
