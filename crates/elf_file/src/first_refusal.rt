// Makes the tests of the headers and of the segments: E1 to E14. Each function returns the refusal
// of the first test that applies.

ghost use Rattle.std.specs.Prelude.{◌≡◌, Some, None, false, MatchResult, OnOk};
ghost use Rattle.elf_file.specs.Header.{HasHeaders};
ghost use Rattle.elf_file.specs.Segment.{has_bad_load, is_too_large, has_bad_order};
ghost use Rattle.elf_file.specs.Refusal.{header_refusal, segment_refusal};

use crate::ObjectRefusal;
use crate::header::{
    has_bad_class, has_bad_data, has_bad_header_size, has_bad_machine, has_bad_magic,
    has_bad_os_abi, has_bad_program_headers, has_bad_type, has_bad_version, is_too_short,
};
use crate::headers::Headers;

/// Tests the file header and the place of the program headers: E1 to E10.
#[tactic(auto, unfolding(crate::specs::Refusal::header_refusal))]
pub(crate) fn test_header(file: &[u8]) -> Result<(), ObjectRefusal>
    ensures refused { MatchResult result (λ _. header_refusal file.now ≡ None)
        (λ refusal. header_refusal file.now ≡ Some refusal) }
    ensures headers { OnOk result (HasHeaders file.now) }
{
    if is_too_short(file) {
        return Err(ObjectRefusal::TooShort);
    }
    if has_bad_magic(file) {
        return Err(ObjectRefusal::BadMagic);
    }
    if has_bad_class(file) {
        return Err(ObjectRefusal::BadClass);
    }
    if has_bad_data(file) {
        return Err(ObjectRefusal::BadData);
    }
    if has_bad_version(file) {
        return Err(ObjectRefusal::BadVersion);
    }
    if has_bad_os_abi(file) {
        return Err(ObjectRefusal::BadOsAbi);
    }
    if has_bad_type(file) {
        return Err(ObjectRefusal::BadType);
    }
    if has_bad_machine(file) {
        return Err(ObjectRefusal::BadMachine);
    }
    if has_bad_header_size(file) {
        return Err(ObjectRefusal::BadHeaderSize);
    }
    if has_bad_program_headers(file) {
        return Err(ObjectRefusal::BadProgramHeaders);
    }
    Ok(())
}

/// Tests the program headers: E11 to E14.
#[tactic(auto, unfolding(crate::specs::Refusal::segment_refusal))]
pub(crate) fn test_segments(headers: &Headers<'_>) -> Result<(), ObjectRefusal>
    ensures refused { MatchResult result (λ _. segment_refusal headers.now ≡ None)
        (λ refusal. segment_refusal headers.now ≡ Some refusal) }
    ensures loads { OnOk result (has_bad_load headers.now ≡ false) }
    ensures large { OnOk result (is_too_large headers.now ≡ false) }
    ensures order { OnOk result (has_bad_order headers.now ≡ false) }
{
    if headers.has_tls_segment() {
        return Err(ObjectRefusal::TlsSegment);
    }
    if headers.has_bad_segment() {
        return Err(ObjectRefusal::BadSegment);
    }
    if headers.is_too_large() {
        return Err(ObjectRefusal::TooLarge);
    }
    if headers.has_bad_order() {
        return Err(ObjectRefusal::SegmentOrder);
    }
    Ok(())
}
