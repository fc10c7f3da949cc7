// The refusals, each with its fixed number (document 01, the table "No., Given exactly when, Returns and leaves"; document 02, in the orders).
#![tactic(auto)]

ghost use Rattle.std.specs.Prelude.{◌≡◌, ◌<◌, ◌≤◌, OnOk, IfErr};
ghost use Rattle.standard_refusal.specs.Number.{number_of, code_of};

/// Why nothing was done.
#[derive(Clone, Copy, PartialEq, Eq, Debug)]
pub enum Refusal {
    /// "list length not a multiple of 32, or above 8,192"
    List = 1,
    /// "operation number without a calculator step"
    Operation = 2,
    /// "a used register number above 15"
    Register = 3,
    /// "lane not below the lane count"
    Lane = 4,
    /// "a shuffle index above 31"
    Index = 5,
    /// "scalar of the wrong kind"
    Kind = 6,
    /// "access past the end"
    Past = 7,
    /// "tolerance above 8"
    Tolerance = 8,
    /// "L outside 64 to 65,536"
    Frame = 9,
    /// "buffer above 65,536 bytes or shorter than L + 32 bits"
    Buffer = 10,
    /// "none": no position has both windows inside the buffer and within the tolerance
    Nowhere = 11,
    /// "the two rows differ in length or a row of halves is odd"
    Rows = 12,
    /// "length zero, no multiple of 512 or above 37 blocks"
    Blocks = 13,
    /// "a check fails"
    Check = 14,
    /// "any other rule of the layout"
    Layout = 15,
    /// "output buffer shorter than the input"
    Output = 16,
    /// "limit above 256"
    Limit = 17,
    /// "more than 16 links"
    Links = 18,
    /// "a place to take up from that is above the list's number of steps"
    Place = 19,
}

impl From<Refusal> for u8 {
    ghost from_gives = { λ refusal number. number ≡ number_of refusal };

    fn from(refusal: Refusal) -> u8 {
        refusal as u8
    }
}

/// The number of a refusal, 0 for none: "0, no refusal, the result".
pub fn code<T: Copy>(outcome: Result<T, Refusal>) -> u8
    ensures { result ≡ code_of outcome }
{
    match outcome {
        Ok(_) => 0,
        Err(refusal) => u8::from(refusal),
    }
}

/// The test of a lane's number, on which every access to one lane begins.
pub fn lane_below(lane: u8, lanes: u8) -> Result<(), Refusal>
    ensures below { OnOk result (lane < lanes) }
    ensures refused { IfErr result (λ refusal. (refusal ≡ Refusal.Lane) × (lanes ≤ lane)) }
{
    if lane < lanes {
        Ok(())
    } else {
        Err(Refusal::Lane)
    }
}
