// What a price rule is.
ghost use Rattle.std.specs.Prelude.{◌≡◌, true, ℤ, pos, negsuc, ◌≤ℤ◌};
ghost use Rattle.rules.specs.Prices.{Counted, Preceding, Prices, Within, InPriceLimit, InDefaultLimit, is_price_question, priced};

use crate::fault::RuleFault;
use amounts::amount::{Kwh, Price};

// The most counted actions that a rule is asked with.
pub const COUNTED_LIMIT: usize = 32;

// How many preceding averages a rule is asked with.
pub const PRECEDING_AVERAGES: usize = 7;

// A balancing action that counts for the prices: what was bought or sold, and at which offer price.
#[derive(Clone, Copy, Debug, PartialEq, Eq)]
pub struct CountedAction {
    pub quantity: Kwh,
    pub price: Price,
}

// System Average, Marginal Buy and Marginal Sell Price of a Day.
#[derive(Clone, Copy, Debug, PartialEq, Eq)]
pub struct DayPrices {
    pub average: Price,
    pub buy: Price,
    pub sell: Price,
}

// A rule means its default price, and the three prices as a function of what it is asked: so equal questions get equal
// answers.
pub trait PriceRule {
    ghost default: { Self → ℤ };

    ghost prices: { Self → Counted → Preceding → Prices };

    // The default price.
    fn default_price(&self) -> Price
        ensures { result ≡ record { 0 = default self.now } };

    // The prices, from the counted actions and the seven preceding averages, oldest first; refused exactly where a list or a
    // figure is out of its limits. Two lists, and no struct of them: each clause would say `question.now.counted.now`, and each
    // caller would make the struct for the call.
    fn prices(&self, counted: &[CountedAction], preceding: &[Price]) -> Result<DayPrices, RuleFault>
        ensures value { result ≡ priced (is_price_question counted.now preceding.now) (prices self.now counted.now preceding.now) };

    ghost default_within_limit: { (rule : Self) → InDefaultLimit (default rule) };

    ghost average_within_limit: { (rule : Self) (counted : Counted) (preceding : Preceding) → is_price_question counted preceding ≡ true → InPriceLimit (prices rule counted preceding).average };

    ghost average_from_sell_to_buy: { (rule : Self) (counted : Counted) (preceding : Preceding) → is_price_question counted preceding ≡ true → Within (prices rule counted preceding).sell (prices rule counted preceding).buy (prices rule counted preceding).average };

    ghost buy_within_limit: { (rule : Self) (counted : Counted) (preceding : Preceding) → is_price_question counted preceding ≡ true → (prices rule counted preceding).buy ≤ℤ pos 1100000 };

    ghost sell_within_limit: { (rule : Self) (counted : Counted) (preceding : Preceding) → is_price_question counted preceding ≡ true → negsuc 99999 ≤ℤ (prices rule counted preceding).sell };
}
