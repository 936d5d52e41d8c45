// Writes the bindings of the symbols of a program and its libraries.

ghost use Rattle.std.specs.Prelude.{◌≡◌, true, None};
ghost use Rattle.scope.specs.LoadOrder.{available, names_of};
ghost use Rattle.scope.specs.Objects.{file_at};
ghost use Rattle.image.specs.Placement.{is_good_base, place};
ghost use Rattle.image.specs.Refusal.{program_refusal};
ghost use Rattle.bindings.specs.Bindings.{bindings_text};
ghost use Rattle.bindings.specs.Dependencies.{dependencies_text};
ghost use Rattle.program_parts.specs.Reply.{command_refusal_text};
ghost use Rattle.program_parts.specs.Said.{AppendsFront};
ghost use Rattle.program_parts.specs.Status.{refusal_status};
ghost use Rattle.program_parts.specs.declared.status.Status.TheVariants.{Refused};
ghost use Rattle.tool_commands.specs.Bindings.{BindingsEnds, FoundTells, LackingTells};
ghost use Rattle.tool_commands.specs.Bindings.{PlacedTells, ToldBindings, WholeTells};
ghost use Rattle.tool_commands.specs.Bindings.{bindings_status};
ghost use Rattle.tool_parts.specs.Said.{said_line};
ghost use Rattle.tool_parts.specs.Streams.{TellsOnly};

use crate::telling::say_reply;
use bindings::{Bindings, Dependencies};
use hash_check::Admitted;
use image::{BindRefusal, admit_program};
use program_parts::Status;
use registry::{FoundLibraries, Registry};
use requests::{Refusal, Reply};
use scope::{Library, Order};
use sector_disk::Disk;
use std::alloc::Global;
use std::io::Write;
use store::StoreRefusal;
use tool_parts::{cannot_write, say_refusal};

/// Reports why a bind is refused. Returns the status.
fn say_refused<E: Write>(alloc: Global, refusal: Refusal, errors: &mut E) -> Status
    ensures status { result ≡ refusal_status refusal }
    ensures said { AppendsFront (E.contents errors.old) (E.contents errors.new)
        (said_line (command_refusal_text refusal)) }
{
    say_reply(alloc, &Reply::Refused(refusal), errors)
}

/// Writes the bindings of the placed objects' symbols, or reports that the output failed.
fn write_bindings<O: Write, E: Write>(
    bindings: &Bindings<'_>,
    output: &mut O,
    errors: &mut E,
) -> Status
    ensures { TellsOnly (bindings_status bindings.now) (bindings_text bindings.now) (record {
      before = O.contents output.old;
      after = O.contents output.new;
      errors_before = E.contents errors.old;
      errors_after = E.contents errors.new;
    }) result }
{
    match bindings.write_text(output) {
        Ok(true) => Status::Done,
        Ok(false) => Status::Refused,
        Err(_) => cannot_write(errors),
    }
}

/// Places the objects of `order`, with the program at `base`, and writes the bindings of the
/// objects' symbols. If the objects can't be placed, reports why.
fn tell_placed<O: Write, E: Write>(
    alloc: Global,
    order: &Order<'_>,
    base: u64,
    output: &mut O,
    errors: &mut E,
) -> Status
    requires { is_good_base (file_at order.now 0) base ≡ true }
    ensures { PlacedTells (place base order.now) (record {
      before = O.contents output.old;
      after = O.contents output.new;
      errors_before = E.contents errors.old;
      errors_after = E.contents errors.new;
    }) result }
{
    match Bindings::of(alloc, order, base) {
        Ok(bindings) => write_bindings(&bindings, output, errors),
        Err(refusal) => say_refused(alloc, Refusal::from(refusal), errors),
    }
}

/// Writes the bindings of the symbols of a program and of all the libraries that it needs.
fn tell_whole<O: Write, E: Write>(
    alloc: Global,
    program: &Admitted<'_>,
    base: u64,
    libraries: &[Library<'_>],
    output: &mut O,
    errors: &mut E,
) -> Status
    requires { is_good_base program.now base ≡ true }
    ensures { WholeTells (place base (available program.now libraries.now)) (record {
      before = O.contents output.old;
      after = O.contents output.new;
      errors_before = E.contents errors.old;
      errors_after = E.contents errors.new;
    }) result }
{
    match Order::of(alloc, program, libraries) {
        Ok(order) => tell_placed(alloc, &order, base, output, errors),
        Err(_) => say_refusal(alloc, StoreRefusal::OutOfMemory, errors),
    }
}

/// Writes the libraries that were found for a program and the names that are missing, or reports
/// that the output failed.
fn write_dependencies<O: Write, E: Write>(
    dependencies: &Dependencies<'_>,
    output: &mut O,
    errors: &mut E,
) -> Status
    ensures { TellsOnly Refused (dependencies_text (names_of dependencies.now.libraries)
        (available dependencies.now.program dependencies.now.libraries)) (record {
          before = O.contents output.old;
          after = O.contents output.new;
          errors_before = E.contents errors.old;
          errors_after = E.contents errors.new;
        }) result }
{
    match dependencies.write_text(output) {
        Ok(()) => Status::Refused,
        Err(_) => cannot_write(errors),
    }
}

/// Writes the found libraries and the missing names, for a program that lacks libraries.
fn tell_lacking<O: Write, E: Write>(
    alloc: Global,
    program: &Admitted<'_>,
    libraries: &[Library<'_>],
    output: &mut O,
    errors: &mut E,
) -> Status
    ensures { LackingTells (names_of libraries.now)
        (available program.now libraries.now) (record {
          before = O.contents output.old;
          after = O.contents output.new;
          errors_before = E.contents errors.old;
          errors_after = E.contents errors.new;
        }) result }
{
    match Dependencies::of(alloc, program, libraries) {
        Ok(dependencies) => write_dependencies(&dependencies, output, errors),
        Err(_) => say_refusal(alloc, StoreRefusal::OutOfMemory, errors),
    }
}

/// Writes the bindings of a program's symbols with the libraries in `found`. If names are missing,
/// writes the found libraries and the missing names instead.
fn tell_found<O: Write, E: Write>(
    alloc: Global,
    program: &Admitted<'_>,
    base: u64,
    found: &FoundLibraries,
    output: &mut O,
    errors: &mut E,
) -> Status
    requires { is_good_base program.now base ≡ true }
    ensures { FoundTells program.now base found.now (record {
      before = O.contents output.old;
      after = O.contents output.new;
      errors_before = E.contents errors.old;
      errors_after = E.contents errors.new;
    }) result }
{
    match found.libraries(alloc) {
        Ok(libraries) => {
            if found.lacks_some() {
                tell_lacking(alloc, program, &libraries, output, errors)
            } else {
                tell_whole(alloc, program, base, &libraries, output, errors)
            }
        }
        Err(_) => say_refusal(alloc, StoreRefusal::OutOfMemory, errors),
    }
}

/// Finds the libraries of an admitted program, and writes the bindings of the symbols.
fn tell_admitted<D: Disk, O: Write, E: Write>(
    registry: &mut Registry<D>,
    alloc: Global,
    program: &Admitted<'_>,
    base: u64,
    output: &mut O,
    errors: &mut E,
) -> Status
    requires { program_refusal program.now base ≡ None }
    ensures { ToldBindings D.facts registry.old registry.new program.now base (record {
      before = O.contents output.old;
      after = O.contents output.new;
      errors_before = E.contents errors.old;
      errors_after = E.contents errors.new;
    }) result }
{
    match registry.find_libraries(program) {
        Ok(found) => tell_found(alloc, program, base, &found, output, errors),
        Err(refusal) => say_refused(alloc, refusal, errors),
    }
}

/// Writes the bindings of the symbols of a program at `base`, or reports why this is impossible.
fn tell_program<D: Disk, O: Write, E: Write>(
    registry: &mut Registry<D>,
    alloc: Global,
    program: &[u8],
    base: u64,
    output: &mut O,
    errors: &mut E,
) -> Status
    ensures { ToldBindings D.facts registry.old registry.new program.now base (record {
      before = O.contents output.old;
      after = O.contents output.new;
      errors_before = E.contents errors.old;
      errors_after = E.contents errors.new;
    }) result }
{
    match admit_program(alloc, program, base) {
        Ok(program) => tell_admitted(registry, alloc, &program, base, output, errors),
        Err(refusal) => say_refused(alloc, Refusal::from(refusal), errors),
    }
}

/// Opens the registry on `disk` without testing its libraries, and binds the symbols of a program
/// at `base`. Writes the binding of each symbol to which a relocation refers, object by object in
/// load order. If needed names aren't installed, writes the found libraries and all missing names
/// instead. If neither is possible, reports why. Reads only the libraries that the program needs.
/// Returns the status and the disk. The status is `Refused` if a symbol is undefined or a name is
/// missing.
pub fn run_bindings<D: Disk, O: Write, E: Write>(
    alloc: Global,
    disk: D,
    program: &[u8],
    base: u64,
    output: &mut O,
    errors: &mut E,
) -> (Status, D)
    ensures { BindingsEnds D.facts disk program.now base (record {
      before = O.contents output.old;
      after = O.contents output.new;
      errors_before = E.contents errors.old;
      errors_after = E.contents errors.new;
    }) result.0 result.1 }
{
    match Registry::open_untested(alloc, disk) {
        Ok(registry) => {
            let mut registry = registry;
            let status = tell_program(&mut registry, alloc, program, base, output, errors);
            (status, registry.into_disk())
        }
        Err((refusal, disk)) => (say_refusal(alloc, refusal, errors), disk),
    }
}
