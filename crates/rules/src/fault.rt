// What a rule refuses: to be made of a price out of its limits, and to be asked with a list or figure out of its limits.
ghost use Rattle.rules.specs.Faults.{number, tells_apart};
ghost use Rattle.amounts.specs.declared.layer.Layer.{Layer};

use amounts::fault::Fault;
use amounts::layer::Layer;

// The causes, each with its number.
#[derive(Clone, Copy, Debug, PartialEq, Eq)]
pub enum RuleFault {
    // A price that a rule is made of is out of its limits.
    PriceOutOfLimit = 11,
    // A list or a figure of a question to a rule is out of its limits.
    QuestionOutOfLimit = 50,
}

impl Fault for RuleFault {
    ghost REFUSED_BY = { Layer.Rule };

    ghost number = { number };

    ghost tells_apart = { tells_apart };

    const REFUSED_BY: Layer = Layer::Rule;

    fn number(&self) -> u8 {
        *self as u8
    }
}
