// Converts answers of the store into answers of a registry.
ghost use Rattle.std.specs.Prelude.{◌≡◌, IfErr};
ghost use Rattle.store.specs.Step.{IsRefusalOfPutNew};
ghost use Rattle.registry.specs.Refusals.{refusal_of};
ghost use Rattle.registry.specs.inside.Reading.{in_words};

use requests::Refusal;
use store::StoreRefusal;

/// Returns the registry's refusal for a change that the store refuses.
fn refusal_of(refusal: StoreRefusal) -> Refusal
    requires { IsRefusalOfPutNew refusal }
    ensures { result ≡ refusal_of refusal }
{
    match refusal {
        StoreRefusal::Device => Refusal::Device,
        StoreRefusal::Reopen => Refusal::Reopen,
        StoreRefusal::Full => Refusal::Full,
        StoreRefusal::Fragmented => Refusal::Fragmented,
        StoreRefusal::TooMany => Refusal::TooMany,
        StoreRefusal::GenerationEnd => Refusal::GenerationEnd,
        StoreRefusal::OutOfMemory => Refusal::OutOfMemory,
        StoreRefusal::NotFormatted
        | StoreRefusal::AlreadyFormatted
        | StoreRefusal::Damaged
        | StoreRefusal::BadGeometry
        | StoreRefusal::OldFormat => unreachable!(),
    }
}

/// Returns the registry's answer to a change for the store's answer `answer`.
pub(crate) fn in_words(answer: Result<(), StoreRefusal>) -> Result<(), Refusal>
    requires { IfErr answer IsRefusalOfPutNew }
    ensures { result ≡ in_words answer }
{
    match answer {
        Ok(()) => Ok(()),
        Err(refusal) => Err(refusal_of(refusal)),
    }
}
