// Binds a program with the files of its load order.
ghost use Rattle.std.specs.Prelude.{◌≡◌, map, true, IfOk};
ghost use Rattle.image.specs.Bound.{AreBound};
ghost use Rattle.image.specs.Placement.{is_good_base};
ghost use Rattle.image.specs.Refusal.{missing_by, placed_refusal};
ghost use Rattle.requests.specs.Binding.{object_of};
ghost use Rattle.registry.specs.inside.Walked.{IsBoundBy, IsBoundWith, IsTestedBy, walked_objects};

use crate::library_file::LibraryFile;
use crate::walk::Walk;
use hash_check::Admitted;
use image::{BindRefusal, BoundObject, Image, bind, bound_objects};
use scope::{Library, NeededName, Order};
use std::alloc::{AllocError, Global};

/// Returns `files` as libraries.
pub(crate) fn libraries_of(
    alloc: Global,
    files: &[LibraryFile],
) -> Result<Vec<Library<'_>>, AllocError>
    ensures { IfOk result (λ v. v.items ≡ map object_of files.now) }
{
    let mut libraries = Vec::with_capacity(alloc, files.len())?;
    for file in files {
        libraries.push_reserved(file.library());
    }
    Ok(libraries)
}

/// Binds a program with the files of its load order, at a base that the tests accept. Begins with
/// test B4.
fn bind_files(
    alloc: Global,
    program: &Admitted<'_>,
    base: u64,
    files: &[LibraryFile],
) -> Result<Image, BindRefusal>
    requires { is_good_base program.now base ≡ true }
    ensures { IsBoundWith program.now base files.now result }
{
    let libraries = libraries_of(alloc, files)?;
    let order = Order::of(alloc, program, &libraries)?;
    bind(alloc, &order, base)
}

/// Returns the program and the files at their bases, with the values of their symbols.
fn bound_files(
    alloc: Global,
    program: &Admitted<'_>,
    base: u64,
    files: &[LibraryFile],
) -> Result<Vec<BoundObject>, BindRefusal>
    requires { is_good_base program.now base ≡ true }
    ensures tested { IsTestedBy
        (placed_refusal (walked_objects program.now base files.now)) result }
    ensures bound { IfOk result (λ all.
        AreBound (walked_objects program.now base files.now) all.items) }
{
    let libraries = libraries_of(alloc, files)?;
    let order = Order::of(alloc, program, &libraries)?;
    bound_objects(alloc, &order, base)
}

/// Binds a program in the same way as `bind_files`, and frees each file as soon as its segments are
/// filled.
fn bind_owned(
    alloc: Global,
    program: &Admitted<'_>,
    base: u64,
    files: Vec<LibraryFile>,
) -> Result<Image, BindRefusal>
    requires { is_good_base program.now base ≡ true }
    ensures { IsBoundWith program.now base files.items result }
{
    let objects = bound_files(alloc, program, base, &files)?;
    let mut image = Image::empty(alloc).with(alloc, &objects[0], program.object())?;
    let mut place = 1;
    for file in files {
        image = image.with(alloc, &objects[place], file.admitted().object())?;
        place += 1;
    }
    Ok(image)
}

/// Returns B3 (Missing) for a needed name that no file has, with copies of the name and of the name
/// of the object that needs it.
fn missing(alloc: Global, need: &NeededName) -> Result<BindRefusal, AllocError>
    ensures { IfOk result (λ refusal. refusal ≡ missing_by need.now) }
{
    let NeededName { needer, name } = NeededName::copy_of(
        alloc,
        need.needer.as_bytes(),
        need.name.as_bytes(),
    )?;
    Ok(BindRefusal::Missing { needer, name })
}

/// Binds a program with the findings of a walk, at a base that the tests accept. If a name is
/// missing, refuses with B3 (Missing). Otherwise makes the tests from B4 on.
pub(crate) fn bind_walked(
    alloc: Global,
    program: &Admitted<'_>,
    base: u64,
    walk: &Walk,
) -> Result<Image, BindRefusal>
    requires { is_good_base program.now base ≡ true }
    ensures { IsBoundBy program.now base walk.now.needs.missing walk.now.files.items result }
{
    match &walk.needs.missing {
        Some(need) => Err(missing(alloc, need)?),
        None => bind_files(alloc, program, base, &walk.files),
    }
}

/// Binds a program in the same way as `bind_walked`, and frees each file as soon as it is no longer
/// needed.
pub(crate) fn bind_found(
    alloc: Global,
    program: &Admitted<'_>,
    base: u64,
    walk: Walk,
) -> Result<Image, BindRefusal>
    requires { is_good_base program.now base ≡ true }
    ensures { IsBoundBy program.now base walk.needs.missing walk.files.items result }
{
    let Walk { needs, files } = walk;
    match &needs.missing {
        Some(need) => Err(missing(alloc, need)?),
        None => bind_owned(alloc, program, base, files),
    }
}
