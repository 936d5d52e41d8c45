// Objects in load order.

ghost use Rattle.std.specs.Prelude.{◌≡◌, ◌<◌, length, map, IfOk, IfSome};
ghost use Rattle.std.specs.List.{All};
ghost use Rattle.elf_file.specs.Dynamic.{is_symbolic};
ghost use Rattle.scope.specs.LoadOrder.{available};
ghost use Rattle.scope.specs.Objects.{IsOrder, IsTaken, name_at, file_at, program_name};
ghost use Rattle.scope.specs.inside.Definitions.{IsFound};

use crate::definition_table::DefinitionTable;
use crate::library::Library;
use crate::loaded::LoadedObject;
use crate::worth::worthy_table;
use hash_check::Admitted;
use std::alloc::{AllocError, Global};
use std::marker::Model;

/// The name of a program. The name contains a slash, so no library of a registry has this name.
const PROGRAM_NAME: &[u8] = b"/program";

/// Returns the name of a program, `/program`.
pub fn program_name<'a>() -> &'a [u8]
    ensures { result.now ≡ program_name }
{
    PROGRAM_NAME
}

/// A program and the libraries that are bound with it, in load order. The program is the first
/// object, and its name is `/program`. In contracts, the value is the list of the objects, each
/// with its name and its file's bytes. If lookups by walks may take longer than finding all
/// definitions at once, the order also has the definitions of all symbols.
#[derive(Drop)]
pub struct Order<'a> {
    objects: Vec<LoadedObject<'a>>,
    table: Option<DefinitionTable>,
}

impl<'a> Model for Order<'a> {
    ghost use Rattle.std.specs.Prelude.{List, IfSome, map};
    ghost use Rattle.scope.specs.Objects.{Named, IsOrder};
    ghost use Rattle.scope.specs.inside.Definitions.{IsFound};

    ghost Value = { List Named };

    ghost view = { λ o. o.objects.items };

    ghost invariant = { λ o. IsOrder o.objects.items
        × IfSome o.table (λ t. IsFound o.objects.items (map (λ r. r.items) t.rows.items)) };
}

impl<'a> Order<'a> {
    /// Makes an order of `objects`. If lookups by walks may take longer than finding all
    /// definitions at once, finds and stores the definitions of all symbols. If memory for the
    /// definitions is refused, makes the order without them.
    pub(crate) fn new(alloc: Global, objects: Vec<LoadedObject<'a>>) -> Order<'a>
        requires { IsOrder objects.items }
        ensures { result ≡ objects.entry.items }
    {
        let table = worthy_table(alloc, &objects);
        Order { objects, table }
    }

    /// Makes the order of a program and of libraries that are already in load order, for callers
    /// that have found this order themselves. Allocates about 30 bytes for each library. If lookups
    /// by walks may take longer than finding all definitions at once, also allocates memory for
    /// each symbol.
    pub fn of(
        alloc: Global,
        program: &'a Admitted<'a>,
        libraries: &'a [Library<'a>],
    ) -> Result<Order<'a>, AllocError>
        // The order has the program, followed by the libraries.
        ensures { IfOk result (λ order. order ≡ available program.now libraries.now) }
    {
        let mut objects = Vec::with_capacity(alloc, libraries.len() + 1)?;
        objects.push_reserved(LoadedObject::new(program_name(), program));
        for library in libraries {
            objects.push_reserved(LoadedObject::new(library.name(), library.object()));
        }
        Ok(Order::new(alloc, objects))
    }

    /// The number of objects.
    pub fn count(&self) -> usize
        ensures count { result ≡ length self.now }

        // The first object is the program, and all tests accept each file.
        ensures order { IsOrder self.now }
    {
        self.objects.len()
    }

    /// Returns the name of object number `i`.
    pub fn name(&self, i: usize) -> &'a [u8]
        requires { i < length self.now }
        ensures name { result.now ≡ name_at self.now i }
        ensures order { IsOrder self.now }
    {
        self.objects[i].name()
    }

    /// Returns object number `i`.
    pub fn object(&self, i: usize) -> &'a Admitted<'a>
        requires { i < length self.now }
        ensures file { result.now ≡ file_at self.now i }
        ensures order { IsOrder self.now }
    {
        self.objects[i].object()
    }

    /// The objects, in load order.
    pub(crate) fn objects(&self) -> &[LoadedObject<'a>]
        ensures objects { result.now ≡ self.now }
        ensures taken { All (λ o. IsTaken o.file) self.now }
    {
        &self.objects
    }

    /// The table of the definitions of all symbols, if the order has such a table.
    pub(crate) fn table(&self) -> Option<&DefinitionTable>
        ensures { IfSome result (λ t. IsFound self.now (map (λ r. r.items) t.now.rows.items)) }
    {
        match &self.table {
            Some(found) => Some(found),
            None => None,
        }
    }

    /// Returns whether a lookup of a symbol to which object number `i` refers begins with this
    /// object.
    pub(crate) fn is_symbolic(&self, i: usize) -> bool
        requires { i < length self.now }
        ensures { result ≡ is_symbolic (file_at self.now i) }
    {
        self.objects[i].is_symbolic()
    }
}
