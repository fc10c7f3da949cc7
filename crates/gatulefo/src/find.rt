// The marker finder (document 02, order 5): the smallest bit position at which a marker stands and stands again one frame later.
ghost use Rattle.std.specs.Prelude.{◌≡◌};
ghost use Rattle.finder_windows.specs.Definition.{find};
ghost use Rattle.link_station.specs.Find.{finding, position_numbers};

use link_station::position::{PositionOrRefusal, position_or_refusal};

// Where the marker stands in the buffer, each of its two windows off by at most `tolerance` bits, in frames of `length` bits.
#[unsafe(no_mangle)]
pub extern "C" fn gatulefo_find(
    buffer: &[u8],
    marker: u32,
    tolerance: u32,
    length: u32,
) -> PositionOrRefusal
    ensures { position_numbers result ≡ finding (find buffer.now marker tolerance length) }
{
    position_or_refusal(finder::find(buffer, marker, tolerance, length))
}
