// Defines the commands of the program, and reads them from arguments.

ghost use Rattle.std.specs.Prelude.{◌≡◌, map, string_bytes};
ghost use Rattle.std.specs.Option.{option_map};
ghost use Rattle.commands.specs.Words.{command_line, line_of};
ghost use Rattle.commands.specs.inside.Access.{disk_of};

use crate::form::read_form;

/// A command of the program, with its arguments in the order of the command line. The arguments are
/// unchanged, except that SECTORS is a number. The first argument of every command except `image`
/// is the path of the disk's file.
#[derive(Clone, Copy)]
pub enum Action<'a> {
    /// Prints the image of a program that needs no library.
    Image {
        /// The path of the program's file.
        program: &'a str,
        /// The argument BASE, which may not be a valid address.
        base: &'a str,
    },
    /// Makes an empty registry on a disk. If the file doesn't exist, makes the file too.
    Format {
        /// The path of the disk.
        disk: &'a str,
        /// The number of sectors of the disk, from 8 to 4,194,304.
        sectors: u32,
    },
    /// Makes a registry of version 2 from the registry on a disk of version 1.
    Upgrade {
        /// The path of the disk.
        disk: &'a str,
    },
    /// Installs a library.
    Install {
        /// The path of the disk.
        disk: &'a str,
        /// The path of the library's file.
        file: &'a str,
    },
    /// Replaces the library that has the same name as the file.
    Replace {
        /// The path of the disk.
        disk: &'a str,
        /// The path of the library's file.
        file: &'a str,
    },
    /// Removes a library.
    Remove {
        /// The path of the disk.
        disk: &'a str,
        /// The name of the library.
        name: &'a str,
    },
    /// Sets the preloads.
    Preload {
        /// The path of the disk.
        disk: &'a str,
        /// The names of the preloads, in the order of the command line.
        names: &'a [String],
    },
    /// Lists the libraries and the preloads.
    List {
        /// The path of the disk.
        disk: &'a str,
    },
    /// Prints the image of a program that is bound with the libraries and the preloads.
    Bind {
        /// The path of the disk.
        disk: &'a str,
        /// The path of the program's file.
        program: &'a str,
        /// The argument BASE, which may not be a valid address.
        base: &'a str,
    },
    /// Runs a script.
    Script {
        /// The path of the disk.
        disk: &'a str,
    },
}

impl<'a> Action<'a> {
    /// Returns the path of the command's disk, or `None` if the command has no disk.
    pub(crate) fn disk(&self) -> Option<&'a str>
        ensures { option_map (λ disk. disk.now) result ≡ disk_of (line_of self.now) }
    {
        match *self {
            Action::Image { .. } => None,
            Action::Format { disk, .. }
            | Action::Upgrade { disk }
            | Action::Install { disk, .. }
            | Action::Replace { disk, .. }
            | Action::Remove { disk, .. }
            | Action::Preload { disk, .. }
            | Action::List { disk }
            | Action::Bind { disk, .. }
            | Action::Script { disk } => Some(disk),
        }
    }
}

/// Returns the command that the arguments after the program's name request, or `None` if they
/// request none. The name of the command and the number of its arguments determine the command. In
/// addition, the SECTORS of `format` must be 1 to 7 decimal digits with a value from 8 to
/// 4,194,304. Every other argument may be any string. Allocates no memory.
pub fn read_words(words: &[String]) -> Option<Action<'_>>
    ensures { option_map line_of result
        ≡ command_line (map (λ word. string_bytes word) words.now) }
{
    let (name, words) = words.split_first()?;
    read_form(name, words)
}
