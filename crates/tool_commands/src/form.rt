// Reads the arguments of a command line, and returns the form that they have.

ghost use Rattle.std.specs.Prelude.{◌≡◌, ◌∷◌, map, string_bytes};
ghost use Rattle.std.specs.Option.{option_map};
ghost use Rattle.tool_commands.specs.Form.{command_line, line_of};
ghost use Rattle.tool_commands.specs.Form.{deed_of, of_dump, of_one, of_program, of_two};
ghost use Rattle.tool_commands.specs.Form.{bindings, executable, file, remove, replace, tell};
ghost use Rattle.tool_commands.specs.Form.{purpose_of};

use program_parts::parse_base;

/// The purpose of a script.
#[derive(Clone, Copy, PartialEq, Eq)]
pub enum Purpose {
    /// A script for `rlibreg script`, which carries out each line before it reads the next line.
    Script,
    /// A script for an update, which carries out all lines together at the end. Its last line is
    /// `commit`.
    Update,
}

/// A question about a disk, which a form answers.
#[derive(Clone, Copy, PartialEq, Eq)]
pub enum Form<'a> {
    /// Asks for the numbers of the whole registry.
    Info,
    /// Asks for a test of each library, and a line with its finding.
    Check,
    /// Asks for the digest of each library.
    Digest,
    /// Asks for the bytes of the library with the given name.
    File(&'a str),
    /// Asks for the script that makes the same registry again.
    Dump(Purpose),
}

/// An action on a disk, which the arguments request.
#[derive(Clone, Copy, PartialEq, Eq)]
pub enum Action<'a> {
    /// Answers a question about the disk's contents. Only reads the disk.
    Tell(Form<'a>),
    /// Replaces the library that has the same name as the file at the given path.
    Replace(&'a str),
    /// Removes the library with the given name.
    Remove(&'a str),
    /// Makes all the changes that the lines of the input request, in one commit.
    Update,
    /// Writes the executable file of a bound program.
    Executable {
        /// The path of the program's file.
        program: &'a str,
        /// The address at which the program is bound.
        base: u64,
    },
    /// Writes the bindings of a program's symbols.
    Bindings {
        /// The path of the program's file.
        program: &'a str,
        /// The address at which the program is bound.
        base: u64,
    },
}

/// The path of the disk, and the action, that the arguments name.
#[derive(Clone, Copy, PartialEq, Eq)]
pub struct Asked<'a> {
    /// The path of the disk.
    pub disk: &'a str,
    /// The action on the disk.
    pub action: Action<'a>,
}

/// Reads the argument DISK of a form that has no other argument, and returns DISK and `action`.
fn read_disk<'a>(action: Action<'a>, words: &'a [String]) -> Option<Asked<'a>>
    ensures { option_map line_of result
        ≡ of_one (deed_of action.entry) (map (λ word. string_bytes word) words.now) }
{
    match words {
        [disk] => Some(Asked { disk, action }),
        _ => None,
    }
}

/// Returns the purpose of a dump for `word`, the argument after DISK. Returns `None` if `word`
/// isn't `commit`.
fn read_purpose(word: &str) -> Option<Purpose>
    ensures { result ≡ purpose_of word.now }
{
    match word {
        "commit" => Some(Purpose::Update),
        _ => None,
    }
}

/// Reads the arguments of `dump`: DISK, or DISK `commit`.
fn read_dump(words: &[String]) -> Option<Asked<'_>>
    ensures { option_map line_of result ≡ of_dump (map (λ word. string_bytes word) words.now) }
{
    match words {
        [disk] => Some(Asked {
            disk,
            action: Action::Tell(Form::Dump(Purpose::Script)),
        }),
        [disk, word] => {
            let purpose = read_purpose(word)?;
            let action = Action::Tell(Form::Dump(purpose));
            Some(Asked { disk, action })
        }
        _ => None,
    }
}

/// Reads the arguments of `file`: DISK NAME.
fn read_file(words: &[String]) -> Option<Asked<'_>>
    ensures { option_map line_of result
        ≡ of_two (λ name. tell (file name)) (map (λ word. string_bytes word) words.now) }
{
    match words {
        [disk, name] => Some(Asked {
            disk,
            action: Action::Tell(Form::File(name)),
        }),
        _ => None,
    }
}

/// Reads the arguments of `replace`: DISK FILE.
fn read_replace(words: &[String]) -> Option<Asked<'_>>
    ensures { option_map line_of result
        ≡ of_two replace (map (λ word. string_bytes word) words.now) }
{
    match words {
        [disk, file] => Some(Asked {
            disk,
            action: Action::Replace(file),
        }),
        _ => None,
    }
}

/// Reads the arguments of `remove`: DISK NAME.
fn read_remove(words: &[String]) -> Option<Asked<'_>>
    ensures { option_map line_of result
        ≡ of_two remove (map (λ word. string_bytes word) words.now) }
{
    match words {
        [disk, name] => Some(Asked {
            disk,
            action: Action::Remove(name),
        }),
        _ => None,
    }
}

/// Reads the arguments of `executable`: DISK PROGRAM BASE.
fn read_executable(words: &[String]) -> Option<Asked<'_>>
    ensures { option_map line_of result
        ≡ of_program executable (map (λ word. string_bytes word) words.now) }
{
    match words {
        [disk, program, base] => {
            let base = parse_base(base)?;
            let action = Action::Executable { program, base };
            Some(Asked { disk, action })
        }
        _ => None,
    }
}

/// Reads the arguments of `bindings`: DISK PROGRAM BASE.
fn read_bindings(words: &[String]) -> Option<Asked<'_>>
    ensures { option_map line_of result
        ≡ of_program bindings (map (λ word. string_bytes word) words.now) }
{
    match words {
        [disk, program, base] => {
            let base = parse_base(base)?;
            let action = Action::Bindings { program, base };
            Some(Asked { disk, action })
        }
        _ => None,
    }
}

/// Reads the arguments of the form named `name`.
fn read_form<'a>(name: &str, words: &'a [String]) -> Option<Asked<'a>>
    ensures { option_map line_of result
        ≡ command_line (name.now ∷ map (λ word. string_bytes word) words.now) }
{
    match name {
        "info" => read_disk(Action::Tell(Form::Info), words),
        "check" => read_disk(Action::Tell(Form::Check), words),
        "digest" => read_disk(Action::Tell(Form::Digest), words),
        "file" => read_file(words),
        "dump" => read_dump(words),
        "replace" => read_replace(words),
        "remove" => read_remove(words),
        "update" => read_disk(Action::Update, words),
        "executable" => read_executable(words),
        "bindings" => read_bindings(words),
        _ => None,
    }
}

/// Reads the arguments after the program's name. Returns `None` if they have none of the forms.
/// Allocates nothing.
pub fn read_words(words: &[String]) -> Option<Asked<'_>>
    ensures { option_map line_of result
        ≡ command_line (map (λ word. string_bytes word) words.now) }
{
    let (name, words) = words.split_first()?;
    read_form(name, words)
}
