// The numbers of a whole registry.
ghost use Rattle.std.specs.Prelude.{◌≡◌, ◌≢◌};
ghost use Rattle.c_answers.specs.Contents.{information_of, IsInfoAnswered};

use crate::answer::Answer;
use crate::status::DONE;
use crate::text::turn_away;
use byte_registry::contents_of;
use contents::Info;
use std::alloc::Global;

/// The numbers of a whole registry.
#[repr(C)]
#[derive(Clone, Copy)]
pub struct Information {
    /// The version of the disk's layout: 2.
    pub version: u64,
    /// The number of sectors of the disk.
    pub sectors: u64,
    /// The number of changes since the disk was formatted.
    pub generation: u64,
    /// The number of installed libraries.
    pub libraries: u64,
    /// The number of preloads.
    pub preloads: u64,
    /// The number of unused sectors.
    pub unused_sectors: u64,
    /// The number of runs of adjacent unused sectors.
    pub unused_runs: u64,
    /// The length in bytes of the largest file that can be installed now under a new name, or 0 if
    /// no file can be installed.
    pub largest: u64,
}

/// Returns the numbers of `info` as a structure for C.
fn information_of(info: Info) -> Information
    ensures { result ≡ information_of info }
{
    Information {
        version: 2,
        sectors: u64::from(info.sectors),
        generation: info.generation,
        libraries: info.libraries as u64,
        preloads: info.preloads as u64,
        unused_sectors: u64::from(info.unused.sectors),
        unused_runs: info.unused.runs as u64,
        largest: u64::from(info.unused.largest),
    }
}

/// Puts the numbers of the registry on `disk` into `information`. If this is impossible, reports
/// why.
pub fn info_on(alloc: Global, disk: &[u8], information: &mut Information, text: &mut [u8]) -> Answer
    ensures answered { IsInfoAnswered disk.now information.new text.new result result.status }
    ensures left { result.status ≢ 0 → information.new ≡ information.old }
{
    match contents_of(alloc, disk) {
        Ok(contents) => {
            *information = information_of(contents.info());
            let _ = contents.into_disk();
            Answer::of(DONE)
        }
        Err(refusal) => turn_away(alloc, refusal, text),
    }
}
