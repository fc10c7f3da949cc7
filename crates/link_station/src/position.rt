// What comes back of the marker finder.
ghost use Rattle.std.specs.Prelude.{◌≡◌};
ghost use Rattle.finder_windows.specs.Answer.{answer_of};
ghost use Rattle.link_station.specs.Find.{finding, position_numbers};

use finder_windows::Found;
use standard_refusal::Refusal;

// A position with the distances of the windows there and a frame later; or the number of a refusal: 8 tolerance above 8, 9 length outside 64 to 65,536, 10
// buffer above 65,536 bytes or too short, 11 no such position. The number is 0 where a position is given, and the others are 0 where it is refused.
#[repr(C)]
#[derive(Clone, Copy)]
pub struct PositionOrRefusal {
    pub position: usize,
    pub first: u32,
    pub second: u32,
    pub refused: u8,
}

#[tactic(auto, unfolding(crate::specs::Find::finding))]
pub fn position_or_refusal(answer: Result<Found, Refusal>) -> PositionOrRefusal
    ensures { position_numbers result ≡ finding (answer_of answer) }
{
    match answer {
        Ok(found) => PositionOrRefusal {
            position: found.position,
            first: found.first,
            second: found.second,
            refused: 0,
        },
        Err(refusal) => PositionOrRefusal {
            position: 0,
            first: 0,
            second: 0,
            refused: u8::from(refusal),
        },
    }
}
