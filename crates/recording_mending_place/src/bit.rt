ghost use Rattle.std.specs.Prelude.{◌<◌};

/// One of the 4,096 bits of a block: "bit 0 is the top bit of byte 0".
#[derive(Clone, Copy, PartialEq, Eq, Debug)]
pub struct Bit {
    pub number: u16,
    ghost in_block: { number < 4096 },
}
