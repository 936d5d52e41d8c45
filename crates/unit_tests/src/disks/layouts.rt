// Tests the sectors that a layout hands out and takes back.

use extents::{Extent, Layout, MOST_EXTENTS, MOST_SECTORS, TakeRefusal};
use std::alloc::AllocError;

// Returns whether the layout hands out `need` sectors as the extents `wanted`. An extent is given
// by its first sector and its number of sectors.
fn gives(layout: &mut Layout, need: u32, wanted: &[(u32, u32)]) -> bool {
    let Ok(given) = Layout::take(layout, need) else {
        return false;
    };
    for (i, (start, count)) in wanted.iter().enumerate() {
        let extent = Extent {
            start: *start,
            count: *count,
        };
        if given.as_slice().get(i) != Some(&extent) {
            return false;
        }
    }
    given.len() == wanted.len() && given.is_empty() == wanted.is_empty()
}

// Claims the sectors with odd numbers, up to the last sector.
fn claim_odd(layout: &mut Layout, sectors: u32) {
    for half in 1..sectors / 2 {
        let start = half.saturating_mul(2).saturating_add(1);
        let _ = Layout::claim(layout, Extent { start, count: 1 });
    }
}

// Returns the sectors 2, 4 .. 64, each as an extent.
fn even_sectors() -> [(u32, u32); MOST_EXTENTS] {
    let mut even = [(2, 1); MOST_EXTENTS];
    for (i, place) in even.iter_mut().enumerate() {
        place.0 = 2 * i as u32 + 2;
    }
    even
}

// Tests the largest layout, with every second sector claimed.
#[test]
fn lays_out_the_largest_scattered_disk(rt: HostRuntime) -> Result<(), AllocError> {
    let mut layout = Layout::new(rt.alloc(), 4_194_304)?;
    claim_odd(&mut layout, MOST_SECTORS);
    let free = Layout::free_count(&layout);
    let fragmented = Layout::take(&mut layout, 33).err() == Some(TakeRefusal::Fragmented);
    let taken = gives(&mut layout, 32, &even_sectors());
    let next = Layout::take_one(&mut layout);
    assert!(rt; free == 2_097_151 && fragmented && taken && next == Ok(66));
    Ok(())
}

// Returns whether a layout of 8 sectors hands out again the sectors that were claimed and released.
fn gives_again(layout: &mut Layout) -> bool {
    let extent = Extent { start: 3, count: 2 };
    match Layout::claim(layout, extent) {
        Ok(()) => {}
        Err(_) => return false,
    }
    let claimed = Layout::free_count(layout);
    Layout::release(layout, extent);
    claimed == 4 && Layout::free_count(layout) == 6 && gives(layout, 6, &[(2, 6)])
}

#[test]
fn gives_out_what_was_released(rt: HostRuntime) -> Result<(), AllocError> {
    let mut layout = Layout::new(rt.alloc(), 8)?;
    assert!(rt; gives_again(&mut layout));
    Ok(())
}
