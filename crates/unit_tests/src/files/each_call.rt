// Makes each call that reads a file or binds a program once, by its public path, with ample memory.
// Some of these calls are made by no other crate here, because they are for programs that only read
// files or only place objects.

use crate::files::images::sample;
use crate::files::searches::library;
use elf_dynamic::Object;
use hash_check::{Admitted, Found, elf_hash};
use image::{Image, bind, bind_alone, bind_program, good_base, place};
use samples::program;
use scope::{Library, Order, Target, load_order, resolve};
use std::alloc::Global;
use std::test::Fail;

const BASE: u64 = 0x10000;

/// Returns whether the first segment of the library has the whole file.
fn has_segment(object: &Object<'_>) -> bool {
    Object::segment_count(object) == 1
        && Object::segment(object, 0).file_size == 432
        && Object::contents(object, 0) == library()
}

/// Returns whether symbol 1 of the library is `f`, and is the only symbol in the first of two
/// buckets.
fn has_symbol(object: &Object<'_>) -> bool {
    Object::symbol_count(object) == 4
        && Object::symbol(object, 1).value == 0x1a8
        && Object::name_of(object, 1) == b"f".as_slice()
        && Object::chain(object, 1) == 0
        && Object::bucket_count(object) == 2
        && Object::bucket(object, 0) == 1
}

/// Returns whether the library has its own name, needs no library, and has no relocation.
fn is_alone(object: &Object<'_>) -> bool {
    Object::soname(object) == Some(b"q".as_slice())
        && !Object::symbolic(object)
        && Object::needed_count(object) == 0
        && Object::rela_count(object) == 0
}

/// Reads and admits a file.
fn admitted(alloc: Global, file: &[u8]) -> Option<Admitted<'_>> {
    let object = Object::read(file).ok()?;
    Admitted::admit(alloc, object).ok()
}

/// Returns whether `f` is found in the library, and whether the search compares one symbol.
fn finds(admitted: &Admitted<'_>) -> bool {
    let hashed = Admitted::find_hashed(admitted, b"f", elf_hash(b"f"));
    let wanted = Found {
        symbol: Some(1),
        compared: 1,
    };
    hashed == wanted
        && Admitted::find(admitted, b"f") == Some(1)
        && Admitted::library_name(admitted) == Ok(b"q".as_slice())
}

#[test]
fn a_library_is_read_and_searched(rt: HostRuntime) {
    let Some(library) = admitted(rt.alloc(), library()) else {
        panic!(rt; "refused")
    };
    let object = Admitted::object(&library);
    let is_read = has_segment(object) && has_symbol(object) && is_alone(object);
    assert!(rt; is_read && finds(&library));
}

/// Returns whether an image has the file's first byte at `address`, and a text that begins with
/// `front`.
fn has_file_at(alloc: Global, image: &Image, address: u64, front: &[u8]) -> bool {
    let mut text = Vec::new(alloc);
    Image::byte(image, address) == Some(0x7f)
        && Image::write_text(image, &mut text).is_ok()
        && text.starts_with(front)
}

const TEXT: &[u8] = b"object 0x0000000000010000 /program\n";

/// Returns whether a program with one relocation is bound without libraries.
fn is_bound_alone(alloc: Global, file: &[u8]) -> bool {
    let Ok(object) = Object::read(file) else {
        return false;
    };
    let relocates = Object::rela_count(&object) == 1 && Object::rela(&object, 0).addend == 0x2000;
    match bind_alone(alloc, file, BASE) {
        Ok(image) => relocates && has_file_at(alloc, &image, BASE, TEXT),
        Err(_) => false,
    }
}

#[test]
fn a_program_is_bound_alone(rt: HostRuntime) -> Result<(), Fail> {
    let file = sample(rt.alloc())?;
    assert!(rt; is_bound_alone(rt.alloc(), &file));
    Ok(())
}

/// Returns whether `order` has a program and the library `a`, whose only symbol is number 0.
fn is_order(order: &Order<'_>) -> bool {
    if Order::count(order) != 2 {
        return false;
    }
    let symbols = Object::symbol_count(Order::object(order, 1).object());
    symbols == 1
        && Order::name(order, 1) == b"a".as_slice()
        && resolve(order, 1, 0) == Ok(Target::Zero)
}

/// Returns whether the objects of `order` are placed one after the other, and bound at these
/// places.
fn is_placed(alloc: Global, order: &Order<'_>) -> bool {
    if Order::count(order) != 2 || !good_base(Order::object(order, 0), BASE) {
        return false;
    }
    let Ok(bases) = place(alloc, order, BASE) else {
        return false;
    };
    match bind(alloc, order, BASE) {
        Ok(image) => bases.as_slice() == [BASE, 0x11000].as_slice()
            && has_file_at(alloc, &image, 0x11000, TEXT),
        Err(_) => false,
    }
}

/// Returns whether a program that needs the library `a` is bound with it.
fn is_bound(alloc: Global, file: &[u8], own: &[u8]) -> bool {
    let Some(program) = admitted(alloc, file) else {
        return false;
    };
    let Some(object) = admitted(alloc, own) else {
        return false;
    };
    let libraries = [Library { name: b"a", object }];
    let [library] = &libraries;
    let is_a = Library::name(library) == b"a".as_slice()
        && Object::symbol_count(Library::object(library).object()) == 1;
    let needs = Object::needed_count(program.object()) == 1
        && Object::needed(program.object(), 0) == b"a".as_slice();
    let placed = match load_order(alloc, &program, &libraries, &[0]) {
        Ok(order) => is_order(&order) && is_placed(alloc, &order),
        Err(_) => false,
    };
    match bind_program(alloc, file, BASE, &libraries, &[]) {
        Ok(image) => is_a && needs && placed && has_file_at(alloc, &image, 0x11000, TEXT),
        Err(_) => false,
    }
}

#[test]
fn a_program_is_bound_with_a_library(rt: HostRuntime) {
    assert!(rt; is_bound(rt.alloc(), &program(b'a'), &samples::library(b'a', 0)));
}
