// Binds a program.

ghost use Rattle.std.specs.Prelude.{◌≡◌, ℕ, ◌<◌, [], length, None, nat_eq, IfOk, IfErr, OnOk};
ghost use Rattle.std.specs.List.{All, IsDistinct};
ghost use Rattle.std.specs.Str.{bytes_eq};
ghost use Rattle.scope.specs.LoadOrder.{names_of};
ghost use Rattle.image.specs.Byte.{byte_of};
ghost use Rattle.image.specs.Image.{image_byte, image_of};
ghost use Rattle.image.specs.Placement.{alone, objects_of};
ghost use Rattle.image.specs.Refusal.{program_refusal, IsProgramAnswer};
ghost use Rattle.image.specs.Refusal.{bind_refusal, alone_refusal, IsAnswer};

use crate::binding::bind;
use crate::image::Image;
use crate::placement::good_base;
use crate::refusal::BindRefusal;
use hash_check::{Admitted, ReadRefusal};
use scope::{Library, load_order};
use std::alloc::Global;

/// Reads and admits a program, and tests its base. These tests need no other object. Returns the
/// program, or the first of these refusals: its file is refused (B1); the base isn't a multiple of
/// the program's unit (B2). Takes as much time and memory as `Admitted::read`.
#[tactic(auto, unfolding(crate::specs::Refusal::program_refusal))]
pub fn admit_program(alloc: Global, file: &[u8], base: u64) -> Result<Admitted<'_>, BindRefusal>

    // Returns a program only if neither test refuses.
    ensures accepted { OnOk result (program_refusal file.now base ≡ None) }
    ensures same { IfOk result (λ program. program ≡ file.now) }

    // Otherwise returns the refusal of the first test that refuses, or OutOfMemory if admission
    // allocates.
    ensures refused { IfErr result (IsProgramAnswer file.now base) }
{
    let program = match Admitted::read(alloc, file) {
        Ok(program) => program,
        Err(ReadRefusal::File(refusal)) => return Err(BindRefusal::Program(refusal)),
        Err(ReadRefusal::OutOfMemory) => return Err(BindRefusal::OutOfMemory),
    };
    if !good_base(&program, base) {
        return Err(BindRefusal::BadBase);
    }
    Ok(program)
}

/// Binds an admitted program at a base that is a multiple of its unit. Makes the tests of
/// `bind_program` from B3 on.
fn bind_admitted(
    alloc: Global,
    program: &Admitted<'_>,
    base: u64,
    libraries: &[Library<'_>],
    preloads: &[usize],
) -> Result<Image, BindRefusal>
    requires program { program_refusal program.now base ≡ None }
    requires names { IsDistinct bytes_eq (names_of libraries.now) }
    requires preloads { All (λ p. p < length libraries.now) preloads.now }
    requires distinct { IsDistinct nat_eq preloads.now }

    // Returns an image only if no test refuses.
    ensures accepted { OnOk result
        (bind_refusal program.now base libraries.now preloads.now ≡ None) }

    // Otherwise returns the refusal of the first test that refuses, or OutOfMemory.
    ensures refused { IfErr result (IsAnswer program.now base libraries.now preloads.now) }

    // The image has the defined objects and segments, and their defined bytes.
    ensures ok { IfOk result (λ image. image
        ≡ image_of (objects_of program.now base libraries.now preloads.now)) }

    // At every address, the image has the byte that is defined for this address, or no byte if no
    // byte is defined.
    ensures bytes { IfOk result (λ image. (a : ℕ) → image_byte image a
        ≡ byte_of (objects_of program.now base libraries.now preloads.now) a) }
{
    let order = load_order(alloc, program, libraries, preloads)?;
    bind(alloc, &order, base)
}

/// Binds a program at a base with libraries of different names. `preloads` has the numbers of the
/// libraries that come before the needed libraries in load order.
///
/// Returns the image, or the first of these refusals: the file is refused (B1); the base isn't a
/// multiple of the program's unit (B2); a needed library isn't among `libraries` (B3); memory would
/// end above 2^47 - 4,096 (B4); a relocation's symbol is undefined (B5).
///
/// Takes as much time and memory as `Admitted::read`, `load_order` and `bind` together.
pub fn bind_program(
    alloc: Global,
    file: &[u8],
    base: u64,
    libraries: &[Library<'_>],
    preloads: &[usize],
) -> Result<Image, BindRefusal>
    requires names { IsDistinct bytes_eq (names_of libraries.now) }
    requires preloads { All (λ p. p < length libraries.now) preloads.now }
    requires distinct { IsDistinct nat_eq preloads.now }

    // Returns an image only if no test refuses.
    ensures accepted { OnOk result (bind_refusal file.now base libraries.now preloads.now ≡ None) }

    // Otherwise returns the refusal of the first test that refuses, or OutOfMemory if admission
    // allocates. Admission comes after the tests of the file's bytes, and before all other tests.
    ensures refused { IfErr result (IsAnswer file.now base libraries.now preloads.now) }

    // The image has the defined objects and segments, and their defined bytes.
    ensures ok { IfOk result (λ image. image
        ≡ image_of (objects_of file.now base libraries.now preloads.now)) }

    // At every address, the image has the byte that is defined for this address, or no byte if no
    // byte is defined.
    ensures bytes { IfOk result (λ image. (a : ℕ) → image_byte image a
        ≡ byte_of (objects_of file.now base libraries.now preloads.now) a) }
{
    let program = admit_program(alloc, file, base)?;
    bind_admitted(alloc, &program, base, libraries, preloads)
}

/// Binds a program that needs no library. Does the same as `bind_program` without libraries and
/// preloads. If the program needs a library, the library is missing (B3).
pub fn bind_alone(alloc: Global, file: &[u8], base: u64) -> Result<Image, BindRefusal>

    // Returns an image only if no test refuses.
    ensures accepted { OnOk result (alone_refusal file.now base ≡ None) }

    // Otherwise returns the refusal of the first test that refuses, or OutOfMemory if admission
    // allocates.
    ensures refused { IfErr result (IsAnswer file.now base [] []) }

    // The image has the defined objects and segments, and their defined bytes.
    ensures ok { IfOk result (λ image. image ≡ image_of (alone file.now base)) }

    // At every address, the image has the byte that is defined for this address, or no byte if no
    // byte is defined.
    ensures bytes { IfOk result (λ image.
        (a : ℕ) → image_byte image a ≡ byte_of (alone file.now base) a) }
{
    bind_program(alloc, file, base, &[], &[])
}
