// Pseudorandom numbers, which are the same in every run.

/// Returns the next number of Knuth's generator of 64 bits. The number is below 2^31.
pub(crate) fn next(state: &mut u64) -> u32 {
    *state = state
        .wrapping_mul(6_364_136_223_846_793_005)
        .wrapping_add(1_442_695_040_888_963_407);
    (*state >> 33) as u32
}
