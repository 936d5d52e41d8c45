// The reasons why a program isn't bound.

ghost use Rattle.std.specs.Prelude.{◌≡◌, IfOk};
ghost use Rattle.image.specs.Refusal.{IsOrWantsMemory};
ghost use Rattle.image.specs.declared.refusal.BindRefusal.TheVariants.{Undefined};

use hash_check::FileRefusal;
use names::Name;
use scope::OrderRefusal;
use std::alloc::{AllocError, Global};

/// The reason why a program isn't bound at a base. The variants are in the order of the tests.
#[derive(Debug, Drop, PartialEq, Eq)]
pub enum BindRefusal {
    /// B1: the program's file is refused. The refusal is that of the first test that refuses it.
    Program(FileRefusal),
    /// B2: the base isn't a multiple of the program's unit.
    BadBase,
    /// B3: an object needs a library that isn't among the given libraries.
    Missing {
        /// The name of the object that needs the library.
        needer: Name,
        /// The name of the library.
        name: Name,
    },
    /// B4: the memory of an object would end above 2^47 - 4,096.
    NoRoom,
    /// B5: an object's relocation refers to a symbol that no object defines.
    Undefined {
        /// The object's name.
        object: Name,
        /// The symbol's name.
        symbol: Name,
    },
    /// Memory was refused.
    OutOfMemory,
}

impl From<AllocError> for BindRefusal {
    ghost use Rattle.std.specs.Prelude.{◌≡◌};
    ghost use Rattle.image.specs.declared.refusal.BindRefusal.TheVariants.{OutOfMemory};

    ghost from_gives = { λ _ e. e ≡ OutOfMemory };

    fn from(_: AllocError) -> BindRefusal {
        BindRefusal::OutOfMemory
    }
}

impl From<OrderRefusal> for BindRefusal {
    ghost use Rattle.std.specs.Prelude.{◌≡◌};
    ghost use Rattle.image.specs.Refusal.{of_order};

    ghost from_gives = { λ refusal e. e ≡ of_order refusal };

    fn from(refusal: OrderRefusal) -> BindRefusal {
        match refusal {
            OrderRefusal::Missing { needer, name } => BindRefusal::Missing { needer, name },
            OrderRefusal::OutOfMemory => BindRefusal::OutOfMemory,
        }
    }
}

/// Returns `Undefined` with copies of the names.
fn named_undefined(alloc: Global, object: &[u8], symbol: &[u8]) -> Result<BindRefusal, AllocError>
    ensures { IfOk result (λ e. e ≡ Undefined object.now symbol.now) }
{
    Ok(BindRefusal::Undefined {
        object: Name::copy_of(alloc, object)?,
        symbol: Name::copy_of(alloc, symbol)?,
    })
}

impl BindRefusal {
    /// Returns `Undefined` with copies of the names, or `OutOfMemory` if memory for the copies is
    /// refused.
    pub fn undefined(alloc: Global, object: &[u8], symbol: &[u8]) -> BindRefusal
        ensures { IsOrWantsMemory (Undefined object.now symbol.now) result }
    {
        match named_undefined(alloc, object, symbol) {
            Ok(refusal) => refusal,
            Err(_) => BindRefusal::OutOfMemory,
        }
    }
}
