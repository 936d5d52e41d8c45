// The commands.

/// A command to a registry, with borrowed bytes.
#[derive(Clone, Copy)]
pub enum Command<'a> {
    /// Installs a library. Has the bytes of the library's file.
    Install(&'a [u8]),
    /// Replaces the installed library that has the same name as the new one. Has the bytes of the
    /// new library's file.
    Replace(&'a [u8]),
    /// Removes the library with this name.
    Remove(&'a [u8]),
    /// Makes the libraries with these names the preloads, in this order.
    SetPreloads(&'a [&'a [u8]]),
    /// Binds a program with the libraries and the preloads.
    Bind {
        /// The bytes of the program's file.
        program: &'a [u8],
        /// The base of the program: the address at which its image begins.
        base: u64,
    },
    /// Lists the libraries and the preloads.
    List,
}
