// Computes the place of an object of an image, for a caller in C.
ghost use Rattle.std.specs.Prelude.{◌≡◌};
ghost use Rattle.c_answers.specs.Objects.{address_at, object_place};

use image::ImageObject;

/// The place of an object of an image: its addresses, its name and its segments.
#[repr(C)]
#[derive(Clone, Copy)]
pub struct ObjectPlace {
    /// The number that is added to the addresses in the object's file.
    pub base: u64,
    /// The offset of the object's name in the buffer of bytes.
    pub name: u64,
    /// The length of the object's name in bytes, without the byte 0 after it.
    pub name_length: u64,
    /// The number of the object's first segment in the image.
    pub first_segment: u64,
    /// The number of segments of the image that belong to the object.
    pub segments: u64,
    /// The address of the object's program headers, or 0 if no segment has them.
    pub headers: u64,
    /// The number of program headers in the object's file.
    pub header_count: u64,
    /// The address of the object's dynamic section, or 0 if no segment has it.
    pub dynamic: u64,
    /// The sum of the object's base and its file's `e_entry`, modulo 2^64.
    pub entry: u64,
}

/// Returns the sum of `base` and `address` modulo 2^64, or 0 if there is no address.
fn address_at(base: u64, address: Option<u64>) -> u64
    ensures { result ≡ address_at base address }
{
    match address {
        Some(address) => base.wrapping_add(address),
        None => 0,
    }
}

/// Returns the place of an object whose name is at offset `name`, and whose first segment is number
/// `first_segment` of the image.
pub(crate) fn object_place(object: &ImageObject, name: usize, first_segment: usize) -> ObjectPlace
    ensures { result ≡ object_place name first_segment object.now }
{
    let addresses = object.addresses;
    ObjectPlace {
        base: object.base,
        name: name as u64,
        name_length: object.name.as_bytes().len() as u64,
        first_segment: first_segment as u64,
        segments: object.segment_count as u64,
        headers: address_at(object.base, addresses.headers),
        header_count: addresses.header_count,
        dynamic: address_at(object.base, addresses.dynamic),
        entry: object.base.wrapping_add(addresses.entry),
    }
}
