// Prices that cannot leave their limits: each kind is a type, so what is made of one need not test it again.
ghost use Rattle.std.specs.Prelude.{◌≡◌, pos};
ghost use Rattle.amounts.specs.Limits.{between};
ghost use Rattle.std.specs.Result.{result_map_both};
ghost use Rattle.rules.specs.Prices.{Within};
ghost use Rattle.rules.specs.PriceRules.{made_where};

use crate::fault::RuleFault;
use amounts::amount::Price;

// A default price: up to `DEFAULT_PRICE_LIMIT`, in figures since a const argument is no `Price`.
pub(crate) type DefaultPrice = LimitedPrice<100_000>;

// A fixed price: up to `PRICE_LIMIT`, likewise in figures.
pub(crate) type FixedPrice = LimitedPrice<1_000_000>;

// A price from 0 to a limit, both included.
#[derive(Clone, Copy)]
pub(crate) struct LimitedPrice<const LIMIT: u32> {
    pub(crate) price: Price,
    ghost within: { Within (pos 0) (pos LIMIT) price.0 },
}

// By hand, since a struct with a ghost field derives no `Default`.
impl<const LIMIT: u32> Default for LimitedPrice<LIMIT> {
    ghost is_default = { λ limited. limited.price.0 ≡ pos 0 };

    fn default() -> Self {
        LimitedPrice { price: Price(0) }
    }
}

impl<const LIMIT: u32> TryFrom<Price> for LimitedPrice<LIMIT> {
    type Error = RuleFault;

    ghost try_from_gives = { λ price result. result_map_both (λ limited. limited.price) (λ fault. fault) result ≡ made_where (between (pos 0) (pos LIMIT) price.0) price };

    fn try_from(price: Price) -> Result<Self, RuleFault> {
        if !(Price(0)..=Price(i64::from(LIMIT))).contains(&price) {
            return Err(RuleFault::PriceOutOfLimit);
        }
        Ok(LimitedPrice { price })
    }
}
