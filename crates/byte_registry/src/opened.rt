// Opens given bytes as a disk that is only read.
ghost use Rattle.std.specs.Prelude.{◌≡◌, [], IfOk, IfErr, length};
ghost use Rattle.byte_disk.specs.Bytes.{sectors_in};
ghost use Rattle.byte_disk.specs.ReadOnlyDisk.{read_only_facts};
ghost use Rattle.states.specs.State.{State};
ghost use Rattle.store.specs.Opened.{IsAt};
ghost use Rattle.byte_registry.specs.Bytes.{HaveNoContents, HoldNoOther, HoldStore};

use byte_disk::ReadOnlyDisk;
use contents::Contents;
use registry::Registry;
use std::alloc::Global;
use store::StoreRefusal;

/// Opens the contents of the bytes `disk`, or returns the reason why they aren't a disk of version
/// 2. Also refuses with S6 (BadGeometry) if the bytes aren't whole sectors. No call of this disk
/// fails, so the refusal is never S1 (Device).
pub fn contents_of<'a>(
    alloc: Global,
    disk: &'a [u8],
) -> Result<Contents<ReadOnlyDisk<'a>>, StoreRefusal>
    // The contents are those of the state that the bytes hold.
    ensures ok { IfOk result (λ contents. (s : State) × HoldStore disk.now s
        × IsAt read_only_facts contents s) }
    ensures held { (s : State) → HoldStore disk.now s
        → IfOk result (λ contents. IsAt read_only_facts contents s) }
    ensures sectors { IfOk result (λ contents.
        (read_only_facts contents.disk).sectors ≡ length (sectors_in disk.now)) }
    ensures now { IfOk result (λ contents.
        (read_only_facts contents.disk).now ≡ sectors_in disk.now) }
    ensures unheld { IfOk result (λ contents. contents.held ≡ []) }
    ensures err { IfErr result (HaveNoContents disk.now) }
{
    let Some(disk) = ReadOnlyDisk::over(disk) else {
        return Err(StoreRefusal::BadGeometry);
    };
    match Contents::open(alloc, disk) {
        Ok(contents) => Ok(contents),
        Err((refusal, _disk)) => Err(refusal),
    }
}

/// Opens the registry on the bytes `disk`, only for reading: reads no file, and every write fails.
/// Returns the refusals of `contents_of`.
pub fn registry_of<'a>(
    alloc: Global,
    disk: &'a [u8],
) -> Result<Registry<ReadOnlyDisk<'a>>, StoreRefusal>
    // The registry is at the state that the bytes hold, and the bytes hold no other state.
    ensures ok { IfOk result (λ registry. (s : State) × HoldStore disk.now s
        × IsAt read_only_facts registry s × HoldNoOther disk.now s) }
    ensures held { (s : State) → HoldStore disk.now s
        → IfOk result (λ registry. IsAt read_only_facts registry s) }
    ensures err { IfErr result (HaveNoContents disk.now) }
{
    let Some(disk) = ReadOnlyDisk::over(disk) else {
        return Err(StoreRefusal::BadGeometry);
    };
    match Registry::open_untested(alloc, disk) {
        Ok(registry) => Ok(registry),
        Err((refusal, _disk)) => Err(refusal),
    }
}
