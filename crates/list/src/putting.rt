// Numbers put as the ones of a memory of bits.
ghost use Rattle.std.specs.Prelude.{◌≡◌, ◌+◌, ◌*◌, ◌<◌, length, slice_index};
ghost use Rattle.sets.specs.Packing.{pack};
ghost use Rattle.list.specs.Decoding.{is_among};
ghost use Rattle.list.specs.Places.{Climbs};

// Writes a bit for each bay after the first `before`: 1 exactly if the bay is among the numbers, all of which are behind those.
pub(crate) fn put_numbers(numbers: &[u16], before: u32, out: &mut [u8])
    requires behind { (k : _) → k < length numbers.now → before < slice_index numbers.now k }
    requires climbs { Climbs numbers.now }
    ensures { out.new ≡ pack (8 * length out.old) (λ j. is_among numbers.now (before + j)) }
{
    out.fill(0);
    let room = 8 * out.len().min(8192) as u32;
    for number in numbers {
        let place = *number as u32 - before;
        if place > room {
            break;
        }
        bits::put(out, place);
    }
}
