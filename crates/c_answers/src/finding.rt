// The finding for a library, as a number and as an entry of a buffer.
ghost use Rattle.std.specs.Prelude.{◌≡◌, ◌<◌, ◌^◌, length, IfSome, IfNone};
ghost use Rattle.contents.specs.declared.finding.Finding.{Finding};
ghost use Rattle.c_answers.specs.Check.{HasNumber};

use crate::status::file_number;
use contents::Finding;

/// The number of the finding for a file that is a library with its entry's name.
const SOUND: u32 = 0;

/// The number of the finding for a file that is a library with another name.
const OTHER_NAME: u32 = 100;

/// The finding for a library that was tested.
#[repr(C)]
#[derive(Clone, Copy)]
pub struct FindingPlace {
    /// The offset of the library's name in the buffer of names.
    pub name: u64,
    /// The length of the library's name in bytes, without the byte 0 after it.
    pub name_length: u32,
    /// The finding: 0 if the file is a library with its entry's name; n if En is the first test
    /// that refuses the file; 100 if the file is a library with another name.
    pub finding: u32,
}

/// Returns the number of a finding, or `None` for a library that can't be read.
pub(crate) fn finding_number(finding: Finding) -> Option<u32>
    ensures some { IfSome result (HasNumber finding) }
    ensures none { IfNone result (finding ≡ Finding.Unreadable) }
{
    match finding {
        Finding::Sound => Some(SOUND),
        Finding::Refused(refusal) => Some(file_number(refusal)),
        Finding::OtherName => Some(OTHER_NAME),
        Finding::Unreadable => None,
    }
}

/// Returns the place of a library with the finding `finding`, whose name is at offset `at`.
pub(crate) fn place_of(name: &[u8], finding: u32, at: usize) -> FindingPlace
    requires { length name.now < 2 ^ 32 }
    ensures { result ≡ record {
      name = at;
      name_length = length name.now;
      finding = finding;
    } }
{
    FindingPlace {
        name: at as u64,
        name_length: name.len() as u32,
        finding,
    }
}
