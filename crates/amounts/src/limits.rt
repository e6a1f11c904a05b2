// The limits of quantities, prices and balances, and the tests against them.
ghost use Rattle.std.specs.Prelude.{◌≡◌};
ghost use Rattle.amounts.specs.Limits.{is_figure, is_quantity, is_reconciliation, is_in_limit, is_default, is_balance};

use crate::amount::{Kwh, Price, Ticks};

// The largest quantity of a figure, a trade, an action or, either way, a reconciliation.
pub const QUANTITY_LIMIT: Kwh = Kwh(1_000_000);

// The largest offer price, average and fixed price.
pub const PRICE_LIMIT: Price = Price(1_000_000);

// The largest default price.
pub const DEFAULT_PRICE_LIMIT: Price = Price(100_000);

// The largest balance, either side of zero.
pub const BALANCE_LIMIT: Ticks = Ticks(100_000_000_000_000_000);

impl Kwh {
    // Whether this can be an input, an output or an input nomination.
    pub fn is_figure(self) -> bool
        ensures { result ≡ is_figure self.0 }
    {
        (Kwh(0)..=QUANTITY_LIMIT).contains(&self)
    }

    // Whether this can be the quantity of a trade or an action.
    pub fn is_quantity(self) -> bool
        ensures { result ≡ is_quantity self.0 }
    {
        (Kwh(1)..=QUANTITY_LIMIT).contains(&self)
    }

    // Whether this can be the quantity of a reconciliation.
    pub fn is_reconciliation(self) -> bool
        ensures { result ≡ is_reconciliation self.0 }
    {
        self != Kwh(0) && (Kwh(-QUANTITY_LIMIT.0)..=QUANTITY_LIMIT).contains(&self)
    }
}

impl Price {
    // Whether this can be an offer price, an average or a fixed price.
    pub fn is_in_limit(self) -> bool
        ensures { result ≡ is_in_limit self.0 }
    {
        (Price(0)..=PRICE_LIMIT).contains(&self)
    }

    // Whether this can be a default price.
    pub fn is_default(self) -> bool
        ensures { result ≡ is_default self.0 }
    {
        (Price(0)..=DEFAULT_PRICE_LIMIT).contains(&self)
    }
}

impl Ticks {
    // Whether this can be a balance.
    pub fn is_balance(self) -> bool
        ensures { result ≡ is_balance self.0 }
    {
        (Ticks(-BALANCE_LIMIT.0)..=BALANCE_LIMIT).contains(&self)
    }
}
