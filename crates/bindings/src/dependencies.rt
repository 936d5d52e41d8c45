// Writes, as text, the names that a program needs, and those that the libraries found for it need.

ghost use Rattle.std.specs.Prelude.{◌≡◌, not, is_none, map, IfOk, OnOk};
ghost use Rattle.std.specs.List.{flat_map};
ghost use Rattle.std.specs.Io.KnownBytes.{Appends};
ghost use Rattle.scope.specs.LoadOrder.{available, names_of, place_of};
ghost use Rattle.scope.specs.Objects.{Named};
ghost use Rattle.text_output.specs.Sends.{Sends};
ghost use Rattle.bindings.specs.Dependencies.{dependencies_text, found_text, need_text};

use crate::lines::{TextBuffer, put_name_line, put_names_line};
use elf_dynamic::Object;
use hash_check::Admitted;
use indexmap::IndexSet;
use scope::{Library, program_name};
use std::alloc::{AllocError, Global};
use std::io::Write;
use std::marker::Model;
use text_output::WriteFault;

/// A program and the libraries that were found for it, in load order. In contracts, the value has
/// the program and the libraries.
#[derive(Drop)]
pub struct Dependencies<'a> {
    program: &'a Admitted<'a>,
    libraries: &'a [Library<'a>],
    names: IndexSet<&'a [u8]>,
}

impl<'a> Model for Dependencies<'a> {
    ghost use Rattle.std.specs.Prelude.{◌≡◌, map, is_none};
    ghost use Rattle.scope.specs.LoadOrder.{names_of};
    ghost use Rattle.bindings.specs.Dependencies.{Found};
    ghost use Rattle.bindings.specs.inside.Names.{AreNames};

    ghost Value = { Found };

    ghost view = { λ d. record { program = d.program.now; libraries = d.libraries.now } };

    ghost invariant = { λ d. AreNames (names_of d.libraries.now) (map (λ n. n.now) d.names.keys) };
}

impl<'a> Dependencies<'a> {
    /// Makes the dependencies of a program and of the libraries that were found for it. Allocates
    /// about 20 bytes for each library.
    pub fn of(
        alloc: Global,
        program: &'a Admitted<'a>,
        libraries: &'a [Library<'a>],
    ) -> Result<Dependencies<'a>, AllocError>
        ensures { IfOk result (λ found. found
            ≡ record { program = program.now; libraries = libraries.now }) }
    {
        let mut names = IndexSet::with_capacity(alloc, libraries.len())?;
        for library in libraries {
            names.insert(library.name())?;
        }
        Ok(Dependencies {
            program,
            libraries,
            names,
        })
    }

    /// Returns whether one of the libraries has the name `name`.
    fn has(&self, name: &[u8]) -> bool
        ensures { result ≡ not (is_none (place_of (names_of self.now.libraries) name.now)) }
    {
        self.names.contains(name)
    }

    /// Writes the line of a name that an object needs and, if no library has this name, the line of
    /// a missing name.
    fn put_need<W: Write>(
        &self,
        out: &mut W,
        buffer: &mut TextBuffer,
        needer: &[u8],
        name: &[u8],
    ) -> Result<(), WriteFault>
        ensures { OnOk result (Sends (W.contents out.old) buffer.old
            (W.contents out.new) buffer.new (need_text (names_of self.now.libraries)
            (record { needer = needer.now; name = name.now }))) }
    {
        put_name_line(out, buffer, b"needs ", name)?;
        if self.has(name) {
            return Ok(());
        }
        put_names_line(out, buffer, b"missing ", name, needer)
    }

    /// Writes the lines of an object. Makes one pass over its dynamic section.
    #[tactic(auto, unfolding(crate::specs::Dependencies::found_text))]
    fn put_object<W: Write>(
        &self,
        out: &mut W,
        buffer: &mut TextBuffer,
        name: &[u8],
        object: &Object<'_>,
    ) -> Result<(), WriteFault>
        ensures { OnOk result (Sends (W.contents out.old) buffer.old
            (W.contents out.new) buffer.new (found_text (names_of self.now.libraries)
            (record { name = name.now; file = object.now }))) }
    {
        put_name_line(out, buffer, b"found ", name)?;
        for needed in object.needed_names() {
            self.put_need(out, buffer, name, needed)?;
        }
        Ok(())
    }

    /// Writes the lines of the libraries.
    fn put_libraries<W: Write>(
        &self,
        out: &mut W,
        buffer: &mut TextBuffer,
    ) -> Result<(), WriteFault>
        ensures { OnOk result (Sends (W.contents out.old) buffer.old
            (W.contents out.new) buffer.new
            (flat_map (found_text (names_of self.now.libraries)) self.now.libraries)) }
    {
        for library in self.libraries {
            self.put_object(out, buffer, library.name(), library.object().object())?;
        }
        Ok(())
    }

    /// Writes the text: the line of each object, and a line for each name that the object needs.
    /// After the line of a name that no library has, writes the line of a missing name. Uses 64 KiB
    /// of stack, allocates nothing, and passes the text to the writer in pieces of 64 KiB. Makes
    /// one pass over the objects' dynamic sections, with one search for each name. If the writer
    /// fails, the writer's contents are unspecified.
    #[tactic(auto, unfolding(crate::specs::Dependencies::dependencies_text))]
    pub fn write_text<W: Write>(&self, out: &mut W) -> Result<(), WriteFault>
        ensures { OnOk result (Appends (W.contents out.old) (W.contents out.new)
            (dependencies_text (names_of self.now.libraries)
            (available self.now.program self.now.libraries))) }
    {
        let mut buffer = TextBuffer::new();
        self.put_object(out, &mut buffer, program_name(), self.program.object())?;
        self.put_libraries(out, &mut buffer)?;
        buffer.put(out, b"end\n")?;
        buffer.send(out)
    }
}
