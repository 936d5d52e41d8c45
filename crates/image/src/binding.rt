// Binds objects that are in load order.

ghost use Rattle.std.specs.Prelude.{◌≡◌, ℕ, true, None, IfOk, IfErr, OnOk};
ghost use Rattle.scope.specs.Objects.{file_at};
ghost use Rattle.image.specs.Byte.{byte_of};
ghost use Rattle.image.specs.Image.{image_byte, image_of};
ghost use Rattle.image.specs.Placement.{is_good_base, place};
ghost use Rattle.image.specs.Refusal.{placed_refusal, IsPlacedAnswer};

use crate::bound::bound_objects;
use crate::image::Image;
use crate::refusal::BindRefusal;
use scope::Order;
use std::alloc::Global;

/// Binds a program and its libraries. `order` has the program and the libraries in load order, and
/// `base` is the program's base.
///
/// Returns their image, or the first of these refusals: memory would end above 2^47 - 4,096 (B4); a
/// relocation's symbol is undefined (B5).
///
/// The time is linear in the files and in their memory, with two exceptions: each symbol is
/// searched by its name, and each relocation that lies in another segment than the relocation
/// before it takes a binary search.
pub fn bind(alloc: Global, order: &Order<'_>, base: u64) -> Result<Image, BindRefusal>
    requires { is_good_base (file_at order.now 0) base ≡ true }

    // Returns an image only if no test refuses. Otherwise returns the refusal of the first test
    // that refuses. May also return OutOfMemory, if the end of the program's own memory isn't too
    // high.
    ensures accepted { OnOk result (placed_refusal (place base order.now) ≡ None) }
    ensures refused { IfErr result (IsPlacedAnswer (place base order.now)) }

    // The image has the defined objects and segments, and their defined bytes.
    ensures ok { IfOk result (λ image. image ≡ image_of (place base order.now)) }

    // At every address, the image has the byte that is defined for this address, or no byte if no
    // byte is defined.
    ensures bytes { IfOk result (λ image.
        (a : ℕ) → image_byte image a ≡ byte_of (place base order.now) a) }
{
    let objects = bound_objects(alloc, order, base)?;
    let mut image = Image::empty(alloc);
    for i in 0..order.count() {
        image = image.with(alloc, &objects[i], order.object(i).object())?;
    }
    Ok(image)
}
