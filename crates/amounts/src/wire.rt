// Quantities and prices in the widths in which messages carry them: each holds exactly the numbers of its four bytes, and
// converts to the quantity or price to compute with. They are types of their own, so that none is taken for another.
ghost use Rattle.std.specs.Prelude.{◌≡◌, pos, Some, decimal};
ghost use Rattle.std.specs.Fmt.{signed_decimal};

use crate::amount::{Kwh, Price};
use std::fmt;

// A quantity in kWh, from 0 up.
#[derive(Clone, Copy, Debug, PartialEq, Eq)]
pub struct WireKwh(pub u32);

// A quantity in kWh, either side of zero.
#[derive(Clone, Copy, Debug, PartialEq, Eq)]
pub struct WireKwhChange(pub i32);

// A price in ticks per kWh, from 0 up.
#[derive(Clone, Copy, Debug, PartialEq, Eq)]
pub struct WirePrice(pub u32);

impl From<WireKwh> for Kwh {
    ghost from_gives = { λ wire kwh. kwh.0 ≡ pos wire.0 };

    fn from(wire: WireKwh) -> Kwh {
        Kwh(i64::from(wire.0))
    }
}

impl From<WireKwhChange> for Kwh {
    ghost from_gives = { λ change kwh. kwh.0 ≡ change.0 };

    fn from(change: WireKwhChange) -> Kwh {
        Kwh(i64::from(change.0))
    }
}

impl From<WirePrice> for Price {
    ghost from_gives = { λ wire price. price.0 ≡ pos wire.0 };

    fn from(wire: WirePrice) -> Price {
        Price(i64::from(wire.0))
    }
}

impl fmt::Display for WireKwh {
    ghost output = { λ kwh. Some (decimal kwh.0) };

    fn fmt<W: fmt::Write>(&self, f: &mut fmt::Formatter<W>) -> fmt::Result {
        let WireKwh(kwh) = self;
        write!(f, "{kwh}")
    }
}

impl fmt::Display for WireKwhChange {
    ghost output = { λ change. Some (signed_decimal change.0) };

    fn fmt<W: fmt::Write>(&self, f: &mut fmt::Formatter<W>) -> fmt::Result {
        let WireKwhChange(change) = self;
        write!(f, "{change}")
    }
}

impl fmt::Display for WirePrice {
    ghost output = { λ price. Some (decimal price.0) };

    fn fmt<W: fmt::Write>(&self, f: &mut fmt::Formatter<W>) -> fmt::Result {
        let WirePrice(price) = self;
        write!(f, "{price}")
    }
}
