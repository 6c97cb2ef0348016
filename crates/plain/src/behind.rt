// The bits behind some bays, written to a memory.
ghost use Rattle.std.specs.Prelude.{◌≡◌, ◌+◌, ◌*◌, ◌≤◌, length};
ghost use Rattle.bits.specs.Bits.{bit_at};
ghost use Rattle.sets.specs.Packing.{pack};

// Copies the bytes from byte `j` on, and writes zeros behind the last.
pub(crate) fn copy_bytes(bytes: &[u8], j: usize, out: &mut [u8])
    ensures { out.new ≡ pack (8 * length out.old) (λ i. bit_at bytes.now (8 * j + i)) }
{
    let rest = &bytes[j.min(bytes.len())..];
    let n = rest.len().min(out.len());
    out[..n].copy_from_slice(&rest[..n]);
    out[n..].fill(0);
}

// Copies the bits after the first `before`, and writes zeros behind the last.
pub(crate) fn copy_bits(bytes: &[u8], before: u32, out: &mut [u8])
    requires few { length bytes.now ≤ 8192 }
    ensures { out.new ≡ pack (8 * length out.old) (λ i. bit_at bytes.now (before + i)) }
{
    let last = 8 * bytes.len() as u32;
    let from = before.min(last);
    let room = 8 * out.len().min(8192) as u32;
    out.fill(0);
    bits::copy(out, 0, bytes, from, room.min(last - from));
}
