// The ones of 64 bits as numbers, written to the front of a memory.
ghost use Rattle.std.specs.Prelude.{◌≡◌, true, ◌+◌, ◌^◌, ◌<◌, ◌≤◌, length};
ghost use Rattle.sets.specs.Lists.{over};
ghost use Rattle.strides.specs.Strides.{row_of, numbered};

// Writes `n` numbers that rise by one.
fn write_run(first: u32, n: u32, out: &mut [u32])
    requires room { n ≤ length out.old }
    requires small { first + n < 2 ^ 32 }
    ensures { out.new ≡ over (numbered (λ i. true) first n) out.old }
{
    for k in 0..n {
        out[k as usize] = first + k;
    }
}

// Writes the number of each one, from the lowest on.
fn write_each(row: u64, first: u32, out: &mut [u32])
    requires room { 64 ≤ length out.old }
    requires small { first + 64 < 2 ^ 32 }
    ensures { out.new ≡ over (numbered (row_of row) first 64) out.old }
{
    let mut left = row;
    let mut n = 0u32;
    while left != 0 {
        out[n as usize] = first + left.trailing_zeros();
        left &= left - 1;
        n += 1;
    }
}

// Writes the number of each one of the row, of which the lowest bit has the number `first`, and gives how many there are.
pub(crate) fn write_ones(row: u64, first: u32, out: &mut [u32]) -> u32
    requires room { 64 ≤ length out.old }
    requires small { first + 64 < 2 ^ 32 }
    ensures writes { out.new ≡ over (numbered (row_of row) first 64) out.old }
    ensures many { result ≡ length (numbered (row_of row) first 64) }
{
    if row == 0 {
        return 0;
    }
    let lowest = row.trailing_zeros();
    let n = row.count_ones();
    if row >> lowest == u64::MAX >> (64 - n) {
        write_run(first + lowest, n, out);
    } else {
        write_each(row, first, out);
    }
    n
}
