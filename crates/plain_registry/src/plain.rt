// A registry as a list of names and bytes.

use crate::libraries::have_distinct_names;
use crate::numbers::are_preloads;
use hash_check::Admitted;
use image::{Image, bind_program};
use names::Name;
use requests::{Command, Listing, Refusal, Reply, library_name};
use scope::Library;
use std::alloc::{AllocError, Global};

// The name of a library, and the bytes of its file.
#[derive(Drop)]
struct File {
    name: Vec<u8>,
    bytes: Vec<u8>,
}

/// A registry without a disk: the libraries in the order in which they were installed, and the
/// names of the preloads in their order.
///
/// This registry has only two limits: the room of a disk, and 2,048 libraries. The caller must keep
/// the other limits: at most 16 preloads and 2^64 - 1 changes.
pub struct PlainRegistry {
    alloc: Global,
    // The number of sectors of the disk.
    sectors: u32,
    files: Vec<File>,
    preloads: Vec<Vec<u8>>,
}

impl Drop for PlainRegistry {
    fn drop(self) {
        let PlainRegistry {
            alloc: _,
            sectors: _,
            files: _files,
            preloads: _preloads,
        } = self;
    }
}

// The maximum number of libraries.
const MOST_LIBRARIES: usize = 2048;

// Returns the number of sectors that a file takes: those of its bytes, and one for its entry.
fn sectors_of(file: &[u8]) -> usize {
    file.len().div_ceil(512).saturating_add(1)
}

// Returns the number of catalogues that list `libraries` libraries, 64 in each.
fn catalogues_of(libraries: usize) -> usize {
    libraries.div_ceil(64)
}

// Returns whether one of the names occurs more than once.
fn has_twice(names: &[&[u8]]) -> bool {
    for (at, name) in names.iter().enumerate() {
        if names[..at].contains(name) {
            return true;
        }
    }
    false
}

// Returns copies of the names.
fn copies(alloc: Global, names: &[&[u8]]) -> Result<Vec<Vec<u8>>, AllocError> {
    let mut copies = Vec::new(alloc);
    for name in names {
        copies.push(name.to_vec(alloc)?)?;
    }
    Ok(copies)
}

impl PlainRegistry {
    /// Makes an empty registry, with the room of a disk of `sectors` sectors.
    pub fn new(alloc: Global, sectors: u32) -> PlainRegistry {
        PlainRegistry {
            alloc,
            sectors,
            files: Vec::new(alloc),
            preloads: Vec::new(alloc),
        }
    }

    /// Sets the room to that of a disk of `sectors` sectors.
    pub fn set_sectors(&mut self, sectors: u32) {
        self.sectors = sectors;
    }

    // Returns the position of the library with this name, if there is one.
    fn place(&self, name: &[u8]) -> Option<usize> {
        for (place, file) in self.files.iter().enumerate() {
            if file.name.as_slice() == name {
                return Some(place);
            }
        }
        None
    }

    // Returns whether a preload has this name.
    fn is_preload(&self, name: &[u8]) -> bool {
        for preload in &self.preloads {
            if preload.as_slice() == name {
                return true;
            }
        }
        false
    }

    // Returns whether each name is the name of a library.
    fn has_all(&self, names: &[&[u8]]) -> bool {
        for name in names {
            if self.place(name).is_none() {
                return false;
            }
        }
        true
    }

    // Returns whether the disk has room for one more file. In addition to the sectors of all files,
    // it must have two sectors for the roots, and twice the catalogues of `libraries` libraries:
    // the current ones, and those that the next change writes.
    fn has_room(&self, file: &[u8], libraries: usize) -> bool {
        let mut taken = sectors_of(file).saturating_add(2);
        for other in &self.files {
            taken = taken.saturating_add(sectors_of(&other.bytes));
        }
        for _ in 0..2 {
            taken = taken.saturating_add(catalogues_of(libraries));
        }
        taken <= self.sectors as usize
    }

    // Adds a library after all other libraries.
    fn add(&mut self, name: &[u8], file: &[u8]) -> Result<(), AllocError> {
        let name = name.to_vec(self.alloc)?;
        let bytes = file.to_vec(self.alloc)?;
        self.files.push(File { name, bytes })?;
        Ok(())
    }

    fn install(&mut self, file: &[u8]) -> Result<(), Refusal> {
        let name = library_name(self.alloc, file)?;
        if self.place(name).is_some() {
            return Err(Refusal::AlreadyInstalled);
        }
        if self.files.len() >= MOST_LIBRARIES {
            return Err(Refusal::TooMany);
        }
        if !self.has_room(file, self.files.len().saturating_add(1)) {
            return Err(Refusal::Full);
        }
        self.add(name, file)?;
        Ok(())
    }

    fn replace(&mut self, file: &[u8]) -> Result<(), Refusal> {
        let name = library_name(self.alloc, file)?;
        let place = self.place(name).ok_or(Refusal::NotInstalled)?;
        if !self.has_room(file, self.files.len()) {
            return Err(Refusal::Full);
        }
        let bytes = file.to_vec(self.alloc)?;
        if let Some(old) = self.files.get_mut(place) {
            old.bytes = bytes;
        }
        Ok(())
    }

    fn remove(&mut self, name: &[u8]) -> Result<(), Refusal> {
        let place = self.place(name).ok_or(Refusal::NotInstalled)?;
        if self.is_preload(name) {
            return Err(Refusal::InPreloads);
        }
        if place < self.files.len() {
            self.files.remove(place);
        }
        Ok(())
    }

    fn set_preloads(&mut self, names: &[&[u8]]) -> Result<(), Refusal> {
        if has_twice(names) {
            return Err(Refusal::RepeatedPreload);
        }
        if !self.has_all(names) {
            return Err(Refusal::NotInstalled);
        }
        self.preloads = copies(self.alloc, names)?;
        Ok(())
    }

    /// Returns the names and sizes of the libraries, and the names of the preloads.
    pub fn list(&self) -> Result<Listing, AllocError> {
        let mut listing = Listing {
            libraries: Vec::new(self.alloc),
            preloads: Vec::new(self.alloc),
        };
        for file in &self.files {
            let name = Name::copy_of(self.alloc, &file.name)?;
            let length = u32::try_from(file.bytes.len()).unwrap_or(u32::MAX);
            listing.libraries.push((name, length))?;
        }
        for name in &self.preloads {
            listing.preloads.push(Name::copy_of(self.alloc, name)?)?;
        }
        Ok(listing)
    }

    // Admits the files of all libraries, and returns the libraries.
    fn libraries(&self) -> Result<Vec<Library<'_>>, AllocError> {
        let mut libraries = Vec::new(self.alloc);
        for file in &self.files {
            if let Ok(object) = Admitted::read(self.alloc, &file.bytes) {
                libraries.push(Library {
                    name: &file.name,
                    object,
                })?;
            }
        }
        Ok(libraries)
    }

    // Returns the positions of the preloads in the list of libraries.
    fn places(&self) -> Result<Vec<usize>, AllocError> {
        let mut places = Vec::new(self.alloc);
        for name in &self.preloads {
            if let Some(place) = self.place(name) {
                places.push(place)?;
            }
        }
        Ok(places)
    }

    fn bind(&self, program: &[u8], base: u64) -> Result<Image, Refusal> {
        let libraries = self.libraries()?;
        let preloads = self.places()?;
        if have_distinct_names(&libraries) && are_preloads(&preloads, libraries.len()) {
            return Ok(bind_program(self.alloc, program, base, &libraries, &preloads)?);
        }
        Err(Refusal::Damaged)
    }

    fn answer(&mut self, command: &Command<'_>) -> Result<Reply, Refusal> {
        match command {
            Command::Install(file) => self.install(file)?,
            Command::Replace(file) => self.replace(file)?,
            Command::Remove(name) => self.remove(name)?,
            Command::SetPreloads(names) => self.set_preloads(names)?,
            Command::Bind { program, base } => return Ok(Reply::Bound(self.bind(program, *base)?)),
            Command::List => return Ok(Reply::Listing(self.list()?)),
        }
        Ok(Reply::Done)
    }

    /// Carries out a command and returns its reply.
    pub fn apply(&mut self, command: &Command<'_>) -> Reply {
        match self.answer(command) {
            Ok(reply) => reply,
            Err(refusal) => Reply::Refused(refusal),
        }
    }

    /// Carries out commands and returns their replies.
    pub fn run(&mut self, commands: &[Command<'_>]) -> Result<Vec<Reply>, AllocError> {
        let mut replies = Vec::new(self.alloc);
        for command in commands {
            replies.push(self.apply(command))?;
        }
        Ok(replies)
    }
}
