//! Which block a request takes.
ghost use Rattle.std.specs.Prelude.{◌≡◌, ◌%◌, ◌^◌, ◌<◌, ◌≤◌, ◌*◌};
ghost use Rattle.lgp_region.specs.Room.{shelf_of};

/// How many sizes of blocks there are: from 16 bytes to 32 gigabytes, each twice the one before it.
pub(crate) const SHELVES: u32 = 32;

/// The number of the smallest size that a request of a given number of bytes fits.
pub(crate) fn shelf(size: usize) -> u32
    ensures number { result ≡ shelf_of size }
    ensures fits { size ≤ 16 * 2 ^ result }
    ensures below { result ≤ 64 }
{
    64 - (size.saturating_sub(1) / 16).leading_zeros()
}

/// The size of that number.
pub(crate) fn size_on(shelf: u32) -> usize
    requires { shelf < SHELVES }
    ensures size { result ≡ 16 * 2 ^ shelf }
    ensures whole { result % 16 ≡ 0 }
{
    16 * (1 << shelf)
}
