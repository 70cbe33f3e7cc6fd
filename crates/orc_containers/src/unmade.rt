//! Why nothing was made.

ghost use Rattle.std.specs.Prelude.{◌≡◌};
ghost use Rattle.orc_containers.specs.declared.unmade.Unmade.TheVariants.{NoMemory as Refused, Shape};

use orc_fault::NoMemory;
use orc_words::ShapeFault;

/// Why no container could be made.
#[derive(Clone, Copy, Debug, PartialEq, Eq, Drop)]
pub enum Unmade {
    /// The first number that is out of range.
    Shape(ShapeFault),
    /// Memory was refused.
    NoMemory,
}

impl From<ShapeFault> for Unmade {
    ghost from_gives = { λ fault e. e ≡ Shape fault };

    fn from(fault: ShapeFault) -> Unmade {
        Unmade::Shape(fault)
    }
}

impl From<NoMemory> for Unmade {
    ghost from_gives = { λ _ e. e ≡ Refused };

    fn from(_refused: NoMemory) -> Unmade {
        Unmade::NoMemory
    }
}
