// Stores the definition of a name, or the fact that there is none, in eight bytes.

ghost use Rattle.std.specs.Prelude.{◌≡◌, ◌≤◌, None, Some};
ghost use Rattle.scope.specs.declared.target.Target.TheVariants.{At};

use crate::target::Target;
use std::marker::Model;

/// A definition by an object in load order, or no definition, in eight bytes, because there is one
/// such value for each symbol. Symbol number 0 stands for no definition. In contracts, the value is
/// the definition as a target, or none.
#[derive(Clone, Drop)]
pub(crate) struct Definition {
    object: u32,
    symbol: u32,
}

impl Model for Definition {
    ghost use Rattle.std.specs.Prelude.{Option};
    ghost use Rattle.scope.specs.declared.target.Target.{Target};
    ghost use Rattle.scope.specs.inside.Definitions.{kept_target};

    ghost Value = { Option Target };

    ghost view = { λ d. kept_target d.object d.symbol };
}

impl Definition {
    /// Makes the value that stands for no definition.
    #[tactic(auto, unfolding(crate::specs::inside::Definitions::kept_target))]
    pub(crate) fn none() -> Definition
        ensures { result ≡ None }
    {
        Definition {
            object: 0,
            symbol: 0,
        }
    }

    /// Returns symbol number `symbol` of the object at place `object`, as a definition.
    #[tactic(auto, unfolding(crate::specs::inside::Definitions::kept_target))]
    pub(crate) fn at(object: u32, symbol: u32) -> Definition
        requires { 1 ≤ symbol }
        ensures { result ≡ Some (At object symbol) }
    {
        Definition { object, symbol }
    }

    /// Returns a copy of the definition.
    pub(crate) fn copied(&self) -> Definition
        ensures { result ≡ self.now }
    {
        Definition {
            object: self.object,
            symbol: self.symbol,
        }
    }

    /// Returns the definition as a target, or `None` if there is none.
    #[tactic(auto, unfolding(crate::specs::inside::Definitions::kept_target))]
    pub(crate) fn target(&self) -> Option<Target>
        ensures { result ≡ self.now }
    {
        if self.symbol == 0 {
            return None;
        }
        Some(Target::At {
            object: self.object as usize,
            symbol: self.symbol,
        })
    }
}
