// Puts a program and its libraries into load order.

ghost use Rattle.std.specs.Prelude.{◌≡◌, ◌<◌, length, map, None, OnOk, IfOk, IfErr, nat_eq};
ghost use Rattle.std.specs.List.{All, IsDistinct};
ghost use Rattle.std.specs.Str.{bytes_eq};
ghost use Rattle.scope.specs.Objects.{IsTaken};
ghost use Rattle.scope.specs.LoadOrder.{available, names_of, object_at, load_places, load_order};
ghost use Rattle.scope.specs.LoadOrder.{missing};
ghost use Rattle.scope.specs.Refusal.{IsRefusal};

use crate::installed::Installed;
use crate::level::first_level;
use crate::library::Library;
use crate::loaded::LoadedObject;
use crate::needs::add_needed;
use crate::order::{Order, program_name};
use crate::refusal::OrderRefusal;
use hash_check::Admitted;
use std::alloc::{AllocError, Global};

/// Returns the object at `place`. The program is at place 0, and the libraries follow.
fn object_at<'a>(
    program: &'a Admitted<'a>,
    libraries: &'a [Library<'a>],
    place: usize,
) -> LoadedObject<'a>
    requires { place < length (available program.now libraries.now) }
    ensures object { result ≡ object_at (available program.now libraries.now) place }
    ensures taken { IsTaken result.file }
{
    if place == 0 {
        LoadedObject::new(program_name(), program)
    } else {
        let library = &libraries[place - 1];
        LoadedObject::new(library.name(), library.object())
    }
}

/// Returns the objects at `places`, in the order of the places.
fn objects_at<'a>(
    alloc: Global,
    program: &'a Admitted<'a>,
    libraries: &'a [Library<'a>],
    places: &[usize],
) -> Result<Vec<LoadedObject<'a>>, AllocError>
    requires { All (λ p. p < length (available program.now libraries.now)) places.now }
    ensures objects { IfOk result (λ v. v.items
        ≡ map (object_at (available program.now libraries.now)) places.now) }
    ensures taken { IfOk result (λ v. All (λ o. IsTaken o.file) v.items) }
{
    let mut objects = Vec::with_capacity(alloc, places.len())?;
    for place in places {
        objects.push_reserved(object_at(program, libraries, *place));
    }
    Ok(objects)
}

/// Returns the places of the objects in load order. Processes a queue of places: for each object in
/// the queue, appends the libraries that the object needs.
fn load_places<'a>(
    alloc: Global,
    program: &'a Admitted<'a>,
    libraries: &'a [Library<'a>],
    preloads: &[usize],
) -> Result<Vec<usize>, OrderRefusal>
    requires names { IsDistinct bytes_eq (names_of libraries.now) }
    requires preloads { All (λ p. p < length libraries.now) preloads.now }
    requires distinct { IsDistinct nat_eq preloads.now }
    ensures ok { IfOk result (λ v. v.items ≡ load_places program.now libraries.now preloads.now) }
    ensures below { IfOk result (λ v.
        All (λ p. p < length (available program.now libraries.now)) v.items) }
    ensures found { OnOk result (missing program.now libraries.now preloads.now ≡ None) }
    ensures refused { IfErr result (IsRefusal (missing program.now libraries.now preloads.now)) }
{
    let installed = Installed::new(alloc, libraries)?;
    let mut places = first_level(alloc, libraries.len(), preloads)?;
    let mut i = 0;
    while i < places.count() {
        let object = object_at(program, libraries, places.at(i));
        add_needed(alloc, &mut places, &installed, &object)?;
        i += 1;
    }
    Ok(places.into_vec())
}

/// Puts a program, the preloads, and all libraries that they need into load order, or returns the
/// first needed name that isn't installed. `preloads` has the preloads' numbers in the list of
/// libraries. Makes one pass over the dynamic section of each object, with one search for each
/// needed name. Allocates about 40 bytes for each library. If lookups by walks may take longer than
/// finding all definitions at once, also allocates memory for each symbol.
pub fn load_order<'a>(
    alloc: Global,
    program: &'a Admitted<'a>,
    libraries: &'a [Library<'a>],
    preloads: &[usize],
) -> Result<Order<'a>, OrderRefusal>
    requires names { IsDistinct bytes_eq (names_of libraries.now) }
    requires preloads { All (λ p. p < length libraries.now) preloads.now }
    requires distinct { IsDistinct nat_eq preloads.now }
    ensures ok { IfOk result (λ order. order ≡ load_order program.now libraries.now preloads.now) }

    // Returns an order only if every needed name is installed.
    ensures found { OnOk result (missing program.now libraries.now preloads.now ≡ None) }

    // Otherwise returns the first needed name that isn't installed, or OutOfMemory.
    ensures refused { IfErr result (IsRefusal (missing program.now libraries.now preloads.now)) }
{
    let places = load_places(alloc, program, libraries, preloads)?;
    Ok(Order::new(alloc, objects_at(alloc, program, libraries, &places)?))
}
