// Appends or writes the texts of refusals.

ghost use Rattle.std.specs.Prelude.{◌≡◌, ◌++◌, codes, true, OnOk, OnErr};
ghost use Rattle.std.specs.Io.KnownBytes.{Appends};
ghost use Rattle.text_output.specs.Sends.{Sends};
ghost use Rattle.program_parts.specs.Refusal.{file_refusal_text, object_refusal_detail};
ghost use Rattle.program_parts.specs.Refusal.{object_refusal_name};
ghost use Rattle.program_parts.specs.Refusal.{disk_refusal_name, disk_refusal_text};

use elf_dynamic::ObjectRefusal;
use hash_check::FileRefusal;
use std::io::Write;
use store::StoreRefusal;
use text_output::{LINE, OutputBuffer, WriteFault};

/// The buffer of a line that is written to a writer.
pub type Line = OutputBuffer<LINE>;

/// Returns the number and the name of the refusal of an object.
fn object_refusal_name(refusal: ObjectRefusal) -> &'static [u8]
    ensures { result.now ≡ object_refusal_name refusal }
{
    match refusal {
        ObjectRefusal::TooShort => b"E1 TooShort",
        ObjectRefusal::BadMagic => b"E2 BadMagic",
        ObjectRefusal::BadClass => b"E3 BadClass",
        ObjectRefusal::BadData => b"E4 BadData",
        ObjectRefusal::BadVersion => b"E5 BadVersion",
        ObjectRefusal::BadOsAbi => b"E6 BadOsAbi",
        ObjectRefusal::BadType => b"E7 BadType",
        ObjectRefusal::BadMachine => b"E8 BadMachine",
        ObjectRefusal::BadHeaderSize => b"E9 BadHeaderSize",
        ObjectRefusal::BadProgramHeaders => b"E10 BadProgramHeaders",
        ObjectRefusal::TlsSegment => b"E11 TlsSegment",
        ObjectRefusal::BadSegment => b"E12 BadSegment",
        ObjectRefusal::TooLarge => b"E13 TooLarge",
        ObjectRefusal::SegmentOrder => b"E14 SegmentOrder",
        ObjectRefusal::BadDynamic => b"E15 BadDynamic",
        ObjectRefusal::DuplicateTag => b"E16 DuplicateTag",
        ObjectRefusal::SymbolVersions => b"E17 SymbolVersions",
        ObjectRefusal::UnsupportedTag => b"E18 UnsupportedTag",
        ObjectRefusal::NoHashTable => b"E19 NoHashTable",
        ObjectRefusal::MissingTag => b"E20 MissingTag",
        ObjectRefusal::BadEntrySize => b"E21 BadEntrySize",
        ObjectRefusal::BadRange => b"E22 BadRange",
        ObjectRefusal::BadString => b"E23 BadString",
        ObjectRefusal::CommonSymbol => b"E24 CommonSymbol",
        ObjectRefusal::TlsSymbol => b"E25 TlsSymbol",
        ObjectRefusal::IfuncSymbol => b"E26 IfuncSymbol",
        ObjectRefusal::BadBinding => b"E27 BadBinding",
        ObjectRefusal::RelocationType(_) => b"E30 RelocationType",
        ObjectRefusal::RelocationSymbol => b"E31 RelocationSymbol",
        ObjectRefusal::RelocationPlace => b"E32 RelocationPlace",
        ObjectRefusal::BadSoname => b"E33 BadSoname",
    }
}

/// Appends the text after the name of a refusal: the type, if the refusal is about a relocation's
/// type.
fn put_detail<const SIZE: usize, W: Write>(
    line: &mut OutputBuffer<SIZE>,
    out: &mut W,
    refusal: ObjectRefusal,
) -> Result<(), WriteFault>
    ensures ok { OnOk result (Sends (W.contents out.old) line.old (W.contents out.new) line.new
        (object_refusal_detail refusal)) }
    ensures err { OnErr result (line.new.failed ≡ true) }
{
    match refusal {
        ObjectRefusal::RelocationType(kind) => {
            line.put(out, b" ")?;
            line.put_decimal(out, u64::from(kind))
        }
        _ => Ok(()),
    }
}

/// Appends the number and the name of an object's refusal, and the text after the name.
fn put_object_refusal<const SIZE: usize, W: Write>(
    line: &mut OutputBuffer<SIZE>,
    out: &mut W,
    refusal: ObjectRefusal,
) -> Result<(), WriteFault>
    ensures ok { OnOk result (Sends (W.contents out.old) line.old (W.contents out.new) line.new
        (object_refusal_name refusal ++ object_refusal_detail refusal)) }
    ensures err { OnErr result (line.new.failed ≡ true) }
{
    line.put(out, object_refusal_name(refusal))?;
    put_detail(line, out, refusal)
}

/// Appends the number and the name of a file's refusal, and the text after the name.
pub fn put_file_refusal<const SIZE: usize, W: Write>(
    line: &mut OutputBuffer<SIZE>,
    out: &mut W,
    refusal: FileRefusal,
) -> Result<(), WriteFault>
    ensures ok { OnOk result (Sends (W.contents out.old) line.old (W.contents out.new) line.new
        (file_refusal_text refusal)) }
    ensures err { OnErr result (line.new.failed ≡ true) }
{
    match refusal {
        FileRefusal::Object(refusal) => put_object_refusal(line, out, refusal),
        FileRefusal::DuplicateDefinition => line.put(out, b"E28 DuplicateDefinition"),
        FileRefusal::BadHashTable => line.put(out, b"E29 BadHashTable"),
    }
}

/// Writes the number and the name of a file's refusal, and the text after the name, in one write
/// and without a newline.
pub fn write_file_refusal<W: Write>(out: &mut W, refusal: FileRefusal) -> Result<(), WriteFault>
    ensures { OnOk result
        (Appends (W.contents out.old) (W.contents out.new) (file_refusal_text refusal)) }
{
    let mut line = Line::new();
    put_file_refusal(&mut line, out, refusal)?;
    line.send(out)
}

/// Returns the number and the name of the refusal of a disk.
fn disk_refusal_name(refusal: StoreRefusal) -> &'static [u8]
    ensures { result.now ≡ disk_refusal_name refusal }
{
    match refusal {
        StoreRefusal::Device => b"S1 Device",
        StoreRefusal::Reopen => b"S2 Reopen",
        StoreRefusal::NotFormatted => b"S3 NotFormatted",
        StoreRefusal::AlreadyFormatted => b"S4 AlreadyFormatted",
        StoreRefusal::Damaged => b"S5 Damaged",
        StoreRefusal::BadGeometry => b"S6 BadGeometry",
        StoreRefusal::Full => b"S7 Full",
        StoreRefusal::Fragmented => b"S8 Fragmented",
        StoreRefusal::TooMany => b"S9 TooMany",
        StoreRefusal::GenerationEnd => b"S10 GenerationEnd",
        StoreRefusal::OutOfMemory => b"S11 OutOfMemory",
        StoreRefusal::OldFormat => b"S12 OldFormat",
    }
}

/// Appends the line of the refusal of a disk.
pub fn put_disk_refusal<const SIZE: usize, W: Write>(
    line: &mut OutputBuffer<SIZE>,
    out: &mut W,
    refusal: StoreRefusal,
) -> Result<(), WriteFault>
    ensures ok { OnOk result (Sends (W.contents out.old) line.old (W.contents out.new) line.new
        (disk_refusal_text refusal)) }
    ensures err { OnErr result (line.new.failed ≡ true) }
{
    line.put(out, b"refused ")?;
    line.put(out, disk_refusal_name(refusal))?;
    line.put(out, b"\n")
}

/// Writes the line of the refusal of a disk, with one write.
pub fn write_disk_refusal<W: Write>(out: &mut W, refusal: StoreRefusal) -> Result<(), WriteFault>
    ensures { OnOk result
        (Appends (W.contents out.old) (W.contents out.new) (disk_refusal_text refusal)) }
{
    let mut line = Line::new();
    put_disk_refusal(&mut line, out, refusal)?;
    line.send(out)
}
