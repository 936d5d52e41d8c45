// Reads the libraries of a case.

use crate::file::changed_file;
use crate::library::name_bytes;
use anyhow::{Context, Result, bail};
use hash_check::{Admitted, ReadRefusal};
use scope::Library;
use std::alloc::Global;

/// The file of a library, and its name in the case.
#[derive(Drop)]
pub(crate) struct LibraryFile {
    name: Option<Vec<u8>>,
    bytes: Vec<u8>,
}

/// Reads a library from `FILE`, with its SONAME as its name, or from `FILE as NAME`.
fn read_library(rt: &HostRuntime, words: &str) -> Result<LibraryFile> {
    let (file, name) = match words.rsplit_once(" as ") {
        Some((file, name)) => (file, Some(name_bytes(rt.alloc(), name)?)),
        None => (words, None),
    };
    let bytes = changed_file(rt, file)?;
    Ok(LibraryFile { name, bytes })
}

/// Reads the libraries of a case, which are separated by ` + `.
pub(crate) fn read_libraries(rt: &HostRuntime, words: &str) -> Result<Vec<LibraryFile>> {
    let mut files = Vec::new(rt.alloc());
    if !words.is_empty() {
        for library in words.split(" + ") {
            files.push(read_library(rt, library)?)?;
        }
    }
    Ok(files)
}

/// Admits a file as a library.
fn library_of<'a>(alloc: Global, file: &'a LibraryFile) -> Result<Library<'a>> {
    let object = match Admitted::read(alloc, &file.bytes) {
        Ok(object) => object,
        Err(ReadRefusal::File(_)) => bail!("a library that is refused"),
        Err(ReadRefusal::OutOfMemory) => bail!("out of memory"),
    };
    let name = match &file.name {
        Some(name) => name.as_slice(),
        None => object
            .library_name()
            .ok()
            .context("a library without a name")?,
    };
    Ok(Library { name, object })
}

/// Admits files as libraries.
pub(crate) fn libraries_of<'a>(
    alloc: Global,
    files: &'a [LibraryFile],
) -> Result<Vec<Library<'a>>> {
    let mut libraries = Vec::new(alloc);
    for file in files {
        libraries.push(library_of(alloc, file)?)?;
    }
    Ok(libraries)
}
