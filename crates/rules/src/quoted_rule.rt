// The quoted rule: a fixed price in the place of an average.
ghost use Rattle.std.specs.Prelude.{◌≡◌, pos, ◌+ℤ◌, ◌-ℤ◌, if◌then◌else◌};
ghost use Rattle.std.specs.Result.{result_map_both};
ghost use Rattle.rules.specs.PriceRules.{quoted, is_quotable, made_where, check_answer};
ghost use Rattle.std.proofs.Common.{rules};

use crate::fault::RuleFault;
use crate::limited_price::{DefaultPrice, FixedPrice};
use crate::price_rule::{CountedAction, DayPrices, PriceRule};
use crate::tally::read_question;
use amounts::amount::Price;

// The fixed price, with the default price either side of it, whatever was traded.
#[derive(Clone, Copy, Default)]
pub struct QuotedRule {
    // The fixed price.
    fixed: FixedPrice,
    // The default price: how far buy and sell stand off it.
    offset: DefaultPrice,
}

impl QuotedRule {
    // The rule with these prices; refused where one of them is out of its limits. The two are parameters here and below, and no
    // struct: the rule itself is the struct of both.
    pub fn try_new(fixed_price: Price, default_price: Price) -> Result<QuotedRule, RuleFault>
        ensures { result_map_both {U = Price × Price} (λ (rule : QuotedRule). (rule.fixed.price, rule.offset.price)) (λ fault. fault) result ≡ made_where (is_quotable fixed_price default_price) (fixed_price, default_price) }
    {
        Ok(QuotedRule {
            fixed: fixed_price.try_into()?,
            offset: default_price.try_into()?,
        })
    }

    // Whether a rule can be made of this fixed price and this default price.
    pub fn check(fixed_price: Price, default_price: Price) -> Result<(), RuleFault>
        ensures { result ≡ check_answer (is_quotable fixed_price default_price) }
    {
        QuotedRule::try_new(fixed_price, default_price).map(|_| ())
    }

    // The rule with these prices; of prices that `check` refuses, with 0 and 0.
    pub fn new(fixed_price: Price, default_price: Price) -> QuotedRule
        ensures fixed { result.fixed.price.0 ≡ (if is_quotable fixed_price default_price then fixed_price.0 else pos 0) }
        ensures default { result.offset.price.0 ≡ (if is_quotable fixed_price default_price then default_price.0 else pos 0) }
    {
        QuotedRule::try_new(fixed_price, default_price).unwrap_or_default()
    }
}

impl PriceRule for QuotedRule {
    ghost default = { λ rule. rule.offset.price.0 };

    ghost prices = { λ rule _ _. quoted rule.fixed.price.0 rule.offset.price.0 };

    ghost default_within_limit = { Prim.search rules };

    ghost average_within_limit = { Prim.search rules };

    ghost average_from_sell_to_buy = { Prim.search rules };

    ghost buy_within_limit = { Prim.search rules };

    ghost sell_within_limit = { Prim.search rules };

    fn default_price(&self) -> Price {
        self.offset.price
    }

    fn prices(
        &self,
        counted: &[CountedAction],
        preceding: &[Price],
    ) -> Result<DayPrices, RuleFault> {
        read_question(counted, preceding)?;
        Ok(quoted_prices(self.fixed, self.offset))
    }
}

// The fixed price, and the default price either side of it.
fn quoted_prices(fixed: FixedPrice, offset: DefaultPrice) -> DayPrices
    ensures { result ≡ record { average = fixed.price; buy = record { 0 = fixed.price.0 +ℤ offset.price.0 }; sell = record { 0 = fixed.price.0 -ℤ offset.price.0 } } }
{
    DayPrices {
        average: fixed.price,
        buy: Price(fixed.price.0 + offset.price.0),
        sell: Price(fixed.price.0 - offset.price.0),
    }
}
