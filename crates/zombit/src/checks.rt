// Whether numbers and bytes make a zombit index. What follows from an earlier check is asked of the caller.
ghost use Rattle.std.specs.Prelude.{◌≡◌, ◌+◌, ◌-◌, ◌*◌, ◌≤◌, not, ◌&&◌, ◌||◌, length, is_some, nat_lt};
ghost use Rattle.sets.specs.Search.{first_from};
ghost use Rattle.bits.specs.Bits.{bit_at};
ghost use Rattle.bits.specs.Checks.{Whole};
ghost use Rattle.zombit.specs.Blocks.{blocks_of};
ghost use Rattle.zombit.specs.Looking.{both_in, places_of};
ghost use Rattle.zombit.specs.Opening.{size_check, some_in, mark_check, mix_check, mixed_bits};

use super::blocks::Blocks;
use super::seen::{has, look};
use faults::{Flaw, check_range};
use sets::Sort;

/// Checks that the block size lies from 2 to 4,096.
pub fn check_size(size: u32) -> Result<(), Flaw>
    ensures { result ≡ size_check size }
{
    check_range(size, 2, 4096, Flaw::BlockSize)
}

// Whether one of the `n` blocks after the first `before` is neither uniform nor marked.
fn lacks_mark(uniform: &[u8], marked: &[u8], before: u32, n: u32) -> bool
    requires first { 1 ≤ n }
    requires few { n ≤ 64 }
    requires uniform { before + n ≤ 8 * length uniform.now }
    requires marked { before + n ≤ 8 * length marked.now }
    ensures { result ≡ some_in (λ i. not (bit_at uniform.now i || bit_at marked.now i)) before n }
{
    let lacking = !(bits::row(uniform, before) | bits::row(marked, before));
    lacking & (u64::MAX >> (64 - n)) != 0
}

// Whether each of the first `count` blocks is uniform or marked.
fn are_marked(uniform: &[u8], marked: &[u8], count: u32) -> bool
    requires uniform { count ≤ 8 * length uniform.now }
    requires marked { count ≤ 8 * length marked.now }
    ensures { result ≡ not (some_in (λ i. not (bit_at uniform.now i || bit_at marked.now i)) 0 count) }
{
    for w in 0..count.div_ceil(64) {
        if lacks_mark(uniform, marked, 64 * w, (count - 64 * w).min(64)) {
            return false;
        }
    }
    true
}

// Whether the last block is all members, and reaches past the last bay.
fn is_overfull(blocks: Blocks, uniform: &[u8], marked: &[u8]) -> bool
    requires uniform { blocks_of blocks.last blocks.size ≤ 8 * length uniform.now }
    requires marked { blocks_of blocks.last blocks.size ≤ 8 * length marked.now }
    ensures { result ≡ (nat_lt blocks.last (places_of blocks.last blocks.size)
        && (bit_at uniform.now (blocks_of blocks.last blocks.size) && bit_at marked.now (blocks_of blocks.last blocks.size))) }
{
    let count = blocks.count();
    count * blocks.size > blocks.last && bits::get(uniform, count) && bits::get(marked, count)
}

// Checks that each mixed block is marked, and that no marked uniform block reaches past the last bay.
pub(crate) fn check_marks(blocks: Blocks, uniform: &[u8], marked: &[u8]) -> Result<(), Flaw>
    requires uniform { Whole (blocks_of blocks.last blocks.size) uniform.now }
    requires marked { Whole (blocks_of blocks.last blocks.size) marked.now }
    ensures { result ≡ mark_check blocks.last blocks.size uniform.now marked.now }
{
    if !are_marked(uniform, marked, blocks.count()) {
        return Err(Flaw::Unlawful);
    }
    if is_overfull(blocks, uniform, marked) {
        return Err(Flaw::Unlawful);
    }
    Ok(())
}

// Whether each `size` of the first `n` times `size` bits are a mixed block.
fn are_mixed(mixed: &[u8], n: u32, size: u32) -> bool
    requires first { 1 ≤ size }
    requires within { n * size ≤ 8 * length mixed.now }
    requires small { length mixed.now ≤ 16384 }
    ensures { result ≡ not (is_some (first_from (λ k. not (both_in (bit_at mixed.now) (k * size) size)) 0 n)) }
{
    for k in 0..n {
        if !look(mixed, k * size, size).is_mixed() {
            return false;
        }
    }
    true
}

// Whether the last block is mixed, and has a member past the last bay. The mixed blocks take `bits` bits.
fn has_member_past(blocks: Blocks, uniform: &[u8], mixed: &[u8], bits: u32) -> bool
    requires uniform { Whole (blocks_of blocks.last blocks.size) uniform.now }
    requires mixed { Whole (mixed_bits blocks.last blocks.size uniform.now) mixed.now }
    requires bits { bits ≡ mixed_bits blocks.last blocks.size uniform.now }
    ensures { result ≡ (not (bit_at uniform.now (blocks_of blocks.last blocks.size))
        && some_in (bit_at mixed.now) (bits - (places_of blocks.last blocks.size - blocks.last)) (places_of blocks.last blocks.size - blocks.last)) }
{
    let count = blocks.count();
    let past = count * blocks.size - blocks.last;
    !bits::get(uniform, count) && has(mixed, Sort::Members, bits - past, past)
}

// Checks that each mixed block has a member and a non-member, and no member past the last bay.
pub(crate) fn check_mixes(blocks: Blocks, uniform: &[u8], mixed: &[u8]) -> Result<(), Flaw>
    requires uniform { Whole (blocks_of blocks.last blocks.size) uniform.now }
    requires mixed { Whole (mixed_bits blocks.last blocks.size uniform.now) mixed.now }
    ensures { result ≡ mix_check blocks.last blocks.size uniform.now mixed.now }
{
    let bits = blocks.mixed_bits(uniform, blocks.count());
    if !are_mixed(mixed, bits / blocks.size, blocks.size) {
        return Err(Flaw::Unlawful);
    }
    if has_member_past(blocks, uniform, mixed, bits) {
        return Err(Flaw::Unlawful);
    }
    Ok(())
}
