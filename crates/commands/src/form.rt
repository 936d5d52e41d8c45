// Reads the forms of the commands. Each form is a name and, after it, arguments.

ghost use Rattle.std.specs.Prelude.{◌≡◌, ◌∷◌, ℕ, List, map, string_bytes};
ghost use Rattle.std.specs.Option.{option_map};
ghost use Rattle.commands.specs.Words.{CommandLine, command_line, line_of};
ghost use Rattle.commands.specs.Words.{of_one, of_three, of_two};
ghost use Rattle.commands.specs.Words.{bind, format_behind, preload_behind};

use crate::action::Action;
use crate::sectors::parse_sectors;

/// Returns the argument if there is exactly one.
fn one_word(words: &[String]) -> Option<&str>
    ensures { (command : List ℕ → CommandLine) → option_map (λ a. command a.now) result
        ≡ of_one command (map (λ word. string_bytes word) words.now) }
{
    match words {
        [a] => Some(a),
        _ => None,
    }
}

/// Returns the arguments if there are exactly two.
fn two_words(words: &[String]) -> Option<(&str, &str)>
    ensures { (command : List ℕ → List ℕ → CommandLine)
        → option_map (λ w. command w.0.now w.1.now) result
        ≡ of_two command (map (λ word. string_bytes word) words.now) }
{
    match words {
        [a, b] => Some((a, b)),
        _ => None,
    }
}

/// Reads the arguments DISK SECTORS of `format`.
fn read_format(words: &[String]) -> Option<Action<'_>>
    ensures { option_map line_of result
        ≡ format_behind (map (λ word. string_bytes word) words.now) }
{
    match words {
        [disk, sectors] => {
            let sectors = parse_sectors(sectors)?;
            Some(Action::Format { disk, sectors })
        }
        _ => None,
    }
}

/// Reads the arguments DISK PROGRAM BASE of `bind`.
fn read_bind(words: &[String]) -> Option<Action<'_>>
    ensures { option_map line_of result
        ≡ of_three bind (map (λ word. string_bytes word) words.now) }
{
    match words {
        [disk, program, base] => Some(Action::Bind {
            disk,
            program,
            base,
        }),
        _ => None,
    }
}

/// Reads the arguments of `preload`: DISK and any number of NAMEs.
fn read_preload(words: &[String]) -> Option<Action<'_>>
    ensures { option_map line_of result
        ≡ preload_behind (map (λ word. string_bytes word) words.now) }
{
    let (disk, names) = words.split_first()?;
    Some(Action::Preload { disk, names })
}

/// Returns the command with the name `name` and the arguments `words`.
pub(crate) fn read_form<'a>(name: &str, words: &'a [String]) -> Option<Action<'a>>
    ensures { option_map line_of result
        ≡ command_line (name.now ∷ map (λ word. string_bytes word) words.now) }
{
    match name {
        "image" => {
            let (program, base) = two_words(words)?;
            Some(Action::Image { program, base })
        }
        "format" => read_format(words),
        "upgrade" => {
            let disk = one_word(words)?;
            Some(Action::Upgrade { disk })
        }
        "install" => {
            let (disk, file) = two_words(words)?;
            Some(Action::Install { disk, file })
        }
        "replace" => {
            let (disk, file) = two_words(words)?;
            Some(Action::Replace { disk, file })
        }
        "remove" => {
            let (disk, name) = two_words(words)?;
            Some(Action::Remove { disk, name })
        }
        "preload" => read_preload(words),
        "list" => {
            let disk = one_word(words)?;
            Some(Action::List { disk })
        }
        "bind" => read_bind(words),
        "script" => {
            let disk = one_word(words)?;
            Some(Action::Script { disk })
        }
        _ => None,
    }
}
