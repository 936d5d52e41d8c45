// Splits given bytes into sectors.
ghost use Rattle.std.specs.Prelude.{◌≡◌, ◌↔◌, ◌<◌, ◌^◌, IsSome, IfSome, All, length};
ghost use Rattle.sector_disk.specs.Disk.{IsWhole};
ghost use Rattle.byte_disk.specs.Bytes.{IsDiskLength, sectors_in};

use sector_disk::SECTOR_BYTES;

/// Returns the sectors of `bytes`, if they are whole sectors and fewer than 2^32 sectors.
pub(crate) fn sectors_of(bytes: &[u8]) -> Option<&[[u8; SECTOR_BYTES]]>
    ensures some { IsSome result ↔ IsDiskLength (length bytes.now) }
    ensures sectors { IfSome result (λ sectors. sectors.now ≡ sectors_in bytes.now) }
    ensures few { IfSome result (λ sectors. length sectors.now < 2 ^ 32) }
    ensures whole { IfSome result (λ sectors. All IsWhole sectors.now) }
{
    let (sectors, rest) = bytes.as_chunks::<SECTOR_BYTES>();
    if rest.len() > 0 || sectors.len() > u32::MAX as usize {
        return None;
    }
    Some(sectors)
}
