// Reports the bindings of the symbols of a program and its libraries.
ghost use Rattle.std.specs.Prelude.{◌≡◌, ◌≢◌, IfOk, IfErr, None, true, if◌then◌else◌};
ghost use Rattle.byte_disk.specs.ReadOnlyDisk.{read_only_facts};
ghost use Rattle.bindings.specs.Bindings.{bindings_text};
ghost use Rattle.bindings.specs.Dependencies.{dependencies_text};
ghost use Rattle.image.specs.Placement.{is_good_base, place};
ghost use Rattle.image.specs.Refusal.{program_refusal, undefined_refusal};
ghost use Rattle.scope.specs.LoadOrder.{available, names_of};
ghost use Rattle.scope.specs.Objects.{file_at};
ghost use Rattle.states.specs.State.{State};
ghost use Rattle.store.specs.Opened.{IsAt};
ghost use Rattle.requests.specs.declared.refusal.Refusal.TheVariants.{OutOfMemory};
ghost use Rattle.c_answers.specs.Bindings.{IsBindingsAnswered, IsText, IsUntold, bound_number};
ghost use Rattle.c_answers.specs.inside.Bindings.{IsFoundText, IsPlacedText, IsUnfoundText};
ghost use Rattle.c_answers.specs.inside.Bindings.{IsUnplaced};

use crate::answer::Answer;
use crate::give::give;
use crate::status::{DONE, MISSING, UNDEFINED};
use crate::text::{tell, turn_away};
use bindings::{Bindings, Dependencies};
use byte_disk::ReadOnlyDisk;
use byte_registry::registry_of;
use hash_check::Admitted;
use image::admit_program;
use registry::{FoundLibraries, Registry};
use requests::{Refusal, Reply};
use scope::{Library, Order};
use std::alloc::Global;

/// A report about a program: its text, and the status of the bind's refusal, or 0 if the bind isn't
/// refused.
#[derive(Drop)]
struct Told {
    number: u32,
    text: Vec<u8>,
}

/// Returns the status of a report of bindings: 0 if each symbol is bound, and otherwise the status
/// of B5 (Undefined). The argument is the value that `Bindings::write_text` returned: no caller
/// passes a literal.
fn bound_status(bound: bool) -> u32
    ensures { result ≡ (if bound then 0 else 105) }
{
    if bound { DONE } else { UNDEFINED }
}

/// Returns the report about the bindings of placed objects' symbols.
fn told_of_bindings(alloc: Global, bindings: &Bindings<'_>) -> Result<Told, Refusal>
    ensures number { IfOk result (λ told.
        told.number ≡ bound_number (undefined_refusal bindings.now)) }
    ensures text { IfOk result (λ told. told.text.items ≡ bindings_text bindings.now) }
    ensures err { IfErr result (λ why. why ≡ OutOfMemory) }
{
    let mut text = Vec::new(alloc);
    match bindings.write_text(&mut text) {
        Ok(bound) => Ok(Told {
            number: bound_status(bound),
            text,
        }),
        Err(_) => Err(Refusal::OutOfMemory),
    }
}

/// Returns the report about the bindings of the symbols of the objects in `order`, with the program
/// at `base`.
fn told_of_order(alloc: Global, order: &Order<'_>, base: u64) -> Result<Told, Refusal>
    requires { is_good_base (file_at order.now 0) base ≡ true }
    ensures ok { IfOk result (λ told.
        IsPlacedText (place base order.now) told.number told.text.items) }
    ensures err { IfErr result (IsUnplaced (place base order.now)) }
{
    match Bindings::of(alloc, order, base) {
        Ok(bindings) => told_of_bindings(alloc, &bindings),
        Err(refusal) => Err(Refusal::from(refusal)),
    }
}

/// Returns the report about the bindings of the symbols of a program and all the libraries that it
/// needs.
fn told_of_whole(
    alloc: Global,
    program: &Admitted<'_>,
    base: u64,
    libraries: &[Library<'_>],
) -> Result<Told, Refusal>
    requires { is_good_base program.now base ≡ true }
    ensures ok { IfOk result (λ told. IsPlacedText
        (place base (available program.now libraries.now)) told.number told.text.items) }
    ensures err { IfErr result (IsUnplaced (place base (available program.now libraries.now))) }
{
    match Order::of(alloc, program, libraries) {
        Ok(order) => told_of_order(alloc, &order, base),
        Err(_) => Err(Refusal::OutOfMemory),
    }
}

/// Returns the report about the found and the missing libraries.
fn told_of_dependencies(alloc: Global, dependencies: &Dependencies<'_>) -> Result<Told, Refusal>
    ensures number { IfOk result (λ told. told.number ≡ 103) }
    ensures text { IfOk result (λ told. told.text.items ≡ dependencies_text
        (names_of dependencies.now.libraries)
        (available dependencies.now.program dependencies.now.libraries)) }
    ensures err { IfErr result (λ why. why ≡ OutOfMemory) }
{
    let mut text = Vec::new(alloc);
    match dependencies.write_text(&mut text) {
        Ok(()) => Ok(Told {
            number: MISSING,
            text,
        }),
        Err(_) => Err(Refusal::OutOfMemory),
    }
}

/// Returns the report about the missing libraries, for a program and the libraries that were found
/// for it.
fn told_of_lacking(
    alloc: Global,
    program: &Admitted<'_>,
    libraries: &[Library<'_>],
) -> Result<Told, Refusal>
    ensures number { IfOk result (λ told. told.number ≡ 103) }
    ensures text { IfOk result (λ told. told.text.items ≡ dependencies_text
        (names_of libraries.now) (available program.now libraries.now)) }
    ensures err { IfErr result (λ why. why ≡ OutOfMemory) }
{
    match Dependencies::of(alloc, program, libraries) {
        Ok(dependencies) => told_of_dependencies(alloc, &dependencies),
        Err(_) => Err(Refusal::OutOfMemory),
    }
}

/// Returns the report about a program with the libraries in `found`.
fn told_of_found(
    alloc: Global,
    program: &Admitted<'_>,
    base: u64,
    found: &FoundLibraries,
) -> Result<Told, Refusal>
    requires { is_good_base program.now base ≡ true }
    ensures ok { IfOk result (λ told.
        IsFoundText program.now base found.now told.number told.text.items) }
    ensures err { IfErr result (IsUnfoundText program.now base found.now) }
{
    match found.libraries(alloc) {
        Ok(libraries) => {
            if found.lacks_some() {
                told_of_lacking(alloc, program, &libraries)
            } else {
                told_of_whole(alloc, program, base, &libraries)
            }
        }
        Err(_) => Err(Refusal::OutOfMemory),
    }
}

/// Finds the libraries of an admitted program, and returns the report about the program.
fn told_of_admitted(
    registry: &mut Registry<ReadOnlyDisk<'_>>,
    alloc: Global,
    program: &Admitted<'_>,
    base: u64,
) -> Result<Told, Refusal>
    requires { program_refusal program.now base ≡ None }
    ensures ok { (s : State) → IsAt read_only_facts registry.old s → IfOk result (λ told.
        IsText s program.now base told.number told.text.items) }
    ensures err { (s : State) → IsAt read_only_facts registry.old s
        → IfErr result (IsUntold s program.now base) }
{
    match registry.find_libraries(program) {
        Ok(found) => told_of_found(alloc, program, base, &found),
        Err(refusal) => Err(refusal),
    }
}

/// Returns the report about a program at `base`, or the reason why there is none.
fn told_of_program(
    registry: &mut Registry<ReadOnlyDisk<'_>>,
    alloc: Global,
    program: &[u8],
    base: u64,
) -> Result<Told, Refusal>
    ensures ok { (s : State) → IsAt read_only_facts registry.old s → IfOk result (λ told.
        IsText s program.now base told.number told.text.items) }
    ensures err { (s : State) → IsAt read_only_facts registry.old s
        → IfErr result (IsUntold s program.now base) }
{
    match admit_program(alloc, program, base) {
        Ok(program) => told_of_admitted(registry, alloc, &program, base),
        Err(refusal) => Err(Refusal::from(refusal)),
    }
}

/// Puts a text about the bindings of the symbols of a program and its libraries into the buffer. If
/// libraries are missing, the text is about the found and the missing libraries instead. If there
/// is no text, reports why.
pub fn bindings_on(
    alloc: Global,
    disk: &[u8],
    program: &[u8],
    base: u64,
    bytes: &mut [u8],
    text: &mut [u8],
) -> Answer
    ensures answered { IsBindingsAnswered disk.now program.now base bytes.new text.new result
        result.status }
    ensures left { result.status ≢ 0 → result.status ≢ 103 → result.status ≢ 105
        → bytes.new ≡ bytes.old }
{
    match registry_of(alloc, disk) {
        Ok(registry) => {
            let mut registry = registry;
            let told = told_of_program(&mut registry, alloc, program, base);
            let _ = registry.into_disk();
            match told {
                Ok(told) => give(told.number, 0, &told.text, bytes),
                Err(refusal) => tell(alloc, &Reply::Refused(refusal), text),
            }
        }
        Err(refusal) => turn_away(alloc, refusal, text),
    }
}
