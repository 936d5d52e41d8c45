// Adds the libraries that an object needs to a queue.

ghost use Rattle.std.specs.Prelude.{◌≡◌, ◌<◌, length, None, OnOk, IfErr};
ghost use Rattle.std.specs.List.{find, filter_map};
ghost use Rattle.elf_dynamic.specs.Strings.{needed};
ghost use Rattle.scope.specs.LoadOrder.{place_of, needed_by, is_missing};
ghost use Rattle.scope.specs.Refusal.{IsRefusal};
ghost use Rattle.scope.specs.inside.Growing.{grown};

use crate::installed::Installed;
use crate::loaded::LoadedObject;
use crate::places::Places;
use crate::refusal::OrderRefusal;
use std::alloc::Global;

/// Adds the libraries that an object needs to the queue, or returns the first needed name that
/// isn't installed. Makes one pass over the object's dynamic section.
pub(crate) fn add_needed(
    alloc: Global,
    places: &mut Places,
    installed: &Installed<'_>,
    object: &LoadedObject<'_>,
) -> Result<(), OrderRefusal>
    requires { length installed.now < places.old.limit }
    ensures ok { OnOk result (places.new ≡ record {
      limit = places.old.limit;
      places = grown places.old.places
          (filter_map (place_of installed.now) (needed object.now.file));
    }) }
    ensures found { OnOk result (find (is_missing installed.now) (needed_by object.now) ≡ None) }
    ensures refused { IfErr result
        (IsRefusal (find (is_missing installed.now) (needed_by object.now))) }
{
    for name in object.object().object().needed_names() {
        match installed.place_of(name) {
            Some(place) => places.add(place)?,
            None => return Err(OrderRefusal::missing(alloc, object.name(), name)),
        }
    }
    Ok(())
}
