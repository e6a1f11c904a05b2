// What a refusal is: the cause, by its number, and the layer that refuses.
ghost use Rattle.std.specs.Prelude.{◌≡◌, ℕ};
ghost use Rattle.amounts.specs.declared.layer.Layer.{Layer};

use crate::layer::Layer;

// Why a layer refuses: each cause has a number of its own.
pub trait Fault {
    ghost REFUSED_BY: { Layer };

    ghost number: { Self → ℕ };

    // The layer of all its causes.
    const REFUSED_BY: Layer;

    // The number of the cause, as it is printed.
    fn number(&self) -> u8
        ensures { result ≡ number self.now };

    // The layer that refuses.
    final fn layer(&self) -> Layer
        ensures { result ≡ REFUSED_BY }
    {
        Self::REFUSED_BY
    }

    ghost tells_apart: { (a b : Self) → number a ≡ number b → a ≡ b };
}
