// A capture of any length that comes in pieces, as far as it has come and has been searched (specs/), what follows from one call to the next and for any run of
// calls (proofs/), and the values that go from one to the other. No code.
#![tactic(auto)]

/// How many bytes of a capture are taken: no position passes the end of a u64.
pub const CAPTURE: u64 = 1152921504606846976;

/// How far a capture has come.
#[derive(Clone, Copy)]
pub struct Scan {
    /// How many of its bytes lie before the window.
    pub before: u64,
    /// How many of its bytes are in the window.
    pub filled: usize,
    /// The bit of the window at which the search goes on.
    pub from: usize,
}

/// Where the marker is met in the capture, with both distances.
#[derive(Clone, Copy)]
pub struct Meeting {
    pub position: u64,
    pub first: u32,
    pub second: u32,
}

/// The next meeting, or none where nothing more is met in what has come; and how far that is then searched.
#[derive(Clone, Copy)]
pub struct Next {
    pub meeting: Option<Meeting>,
    pub scan: Scan,
}

/// How many bytes of a piece were taken, and how far the capture has then come.
#[derive(Clone, Copy)]
pub struct Fed {
    pub used: usize,
    pub scan: Scan,
}
