// Reads a library's file, and tests whether it is a library with its entry's name.

ghost use Rattle.std.specs.Prelude.{◌≡◌, ◌≢◌, ◌<◌, IfOk, IfErr, length, slice_index_or};
ghost use Rattle.states.specs.State.{State};
ghost use Rattle.requests.specs.Library.{IsLibrary};
ghost use Rattle.store.specs.IsRead.{IsRead};
ghost use Rattle.store.specs.Opened.{IsAt};
ghost use Rattle.store.specs.Stands.{no_library};
ghost use Rattle.contents.specs.declared.finding.Finding.TheVariants.{Sound, Unreadable};
ghost use Rattle.tool_commands.specs.declared.sound.Lack.TheVariants.{OutOfMemory};
ghost use Rattle.tool_commands.specs.inside.Lack.{IsLack};

use contents::{Contents, Finding, Unread, finding_of};
use sector_disk::Disk;
use std::alloc::{AllocError, Global};

/// The reason why a library's file isn't returned.
#[derive(Clone, Copy, PartialEq, Eq)]
pub(crate) enum Lack {
    /// The file can't be read, or isn't a library with its entry's name.
    Found(Finding),
    /// Memory was refused.
    OutOfMemory,
}

impl From<AllocError> for Lack {
    ghost from_gives = { λ _ lack. lack ≡ OutOfMemory };

    fn from(_refused: AllocError) -> Lack {
        Lack::OutOfMemory
    }
}

/// Returns `file` if it is a library named `name`, and otherwise the reason why it isn't.
fn tested(alloc: Global, name: &[u8], file: Vec<u8>) -> Result<Vec<u8>, Lack>
    ensures ok { IfOk result (λ f. (f.items ≡ file.items)
        × IsLibrary (record { name = name.now; bytes = file.items })) }
    ensures err { IfErr result (IsLack (record { name = name.now; bytes = file.items })) }
    ensures lack { IfErr result (λ lack. (lack ≢ Lack.Found Sound)
        × (lack ≢ Lack.Found Unreadable)) }
{
    match finding_of(alloc, name, &file)? {
        Finding::Sound => Ok(file),
        finding => Err(Lack::Found(finding)),
    }
}

/// Returns the file of the library at `position`, if it is a library with its entry's name. Reads
/// each sector of the file once.
pub(crate) fn sound_file<D: Disk>(
    contents: &mut Contents<D>,
    alloc: Global,
    position: usize,
) -> Result<Vec<u8>, Lack>
    requires { position < length contents.old.entries }
    ensures read { IsRead D.facts contents.old contents.new }
    ensures ok { (s : State) → IsAt D.facts contents.old s → IfOk result (λ file.
        (file.items ≡ (slice_index_or s.libraries position no_library).bytes)
        × IsLibrary (slice_index_or s.libraries position no_library)) }
    ensures err { (s : State) → IsAt D.facts contents.old s
        → IfErr result (IsLack (slice_index_or s.libraries position no_library)) }
    ensures lack { IfErr result (λ lack. lack ≢ Lack.Found Sound) }
    ensures device { IfErr result (λ lack. lack ≡ Lack.Found Unreadable
        → (D.facts contents.old.disk).failures < (D.facts contents.new.disk).failures) }
{
    match contents.read(alloc, position) {
        Ok(file) => tested(alloc, contents.store().name(position), file),
        Err(Unread::OutOfMemory) => Err(Lack::OutOfMemory),
        Err(_) => Err(Lack::Found(Finding::Unreadable)),
    }
}
