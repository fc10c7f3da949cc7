// What a search is for. It stands alone in this file, since specs/Search.antt speaks of it.
ghost use Rattle.std.specs.Prelude.{◌≤◌, length};

// A marker, how many bits of a window may be wrong, how many bits a frame has, and where all this is looked for.
#[derive(Clone, Copy)]
pub struct Search<'a> {
    pub buffer: &'a [u8],
    pub marker: u32,
    pub tolerance: u32,
    pub frame: usize,
    ghost long: { 64 ≤ frame },
    ghost short: { length buffer.now ≤ 1152921504606846976 },
}
