// The program `fold` (document 02, order 13): folds the chain of shuffles on standard input, 17 bytes a link, and writes the sixteen indices of the one shuffle
// that does the same.
#![tactic(auto)]

ghost use Rattle.std.specs.Prelude.{◌*◌, ◌<◌, ◌≤◌, ◌≡◌, take, drop};
ghost use Rattle.program_digits.specs.Put.{Filled};
ghost use Rattle.fold.specs.Text.{links, links_in, text};

use program_system::{complain, has_argument, tell_status};
use standard_refusal::code;

const LINK: usize = 17;

// "18 more than 16 links": one byte above decides, so no more than that is read.
const DECIDES: usize = 273;

fn link_at(bytes: [u8; 289], k: usize) -> [u8; 17]
    requires { k < 17 }
    ensures { result ≡ take 17 (drop (17 * k) bytes) }
{
    let mut link = [0u8; 17];
    for j in 0..17 {
        link[j] = bytes[LINK * k + j];
    }
    link
}

fn links_of(bytes: [u8; 289]) -> [[u8; 17]; 17]
    ensures { result ≡ links 17 bytes }
{
    let mut links = [[0u8; 17]; 17];
    for k in 0..17 {
        let link = link_at(bytes, k);
        links[k] = link;
    }
    links
}

// How many links so many bytes are; the seventeenth need not be whole.
fn links_in(n: usize) -> usize
    ensures value { result ≡ links_in n }
    ensures upper_bound { result ≤ 17 }
{
    if n < DECIDES { n / LINK } else { 17 }
}

// All bytes that the program writes of a chain, the first so many of these bytes.
fn answer(bytes: [u8; 289], n: usize, out: &mut [u8; 128]) -> usize
    ensures { Filled out.old (text (take (links_in n) (links 17 bytes))) out.new result }
{
    let count = links_in(n);
    let links = links_of(bytes);
    let mut indices = [0u8; 16];
    let refused = code(chain_fold::fold(&links[..count], &mut indices));
    program_reports::fold(refused, indices, out)
}

fn main(rt: HostRuntime) {
    if has_argument(&rt, 1) {
        let _ = eprintln!(rt;
            "fold: takes no arguments, it reads a chain from standard input: ./fold < CHAIN"
        );
        return;
    }
    let mut bytes = [0u8; 289];
    let reading = program_input::read_to(&mut rt.stdin(), &mut bytes[..DECIDES]);
    if let Some(error) = reading.failed {
        complain(&rt, "fold: standard input", error);
        return;
    }
    let n = reading.bytes;
    if n < DECIDES && n % LINK != 0 {
        let _ = eprintln!(rt;
            "fold: expected links of 17 bytes, a partner and sixteen indices, and the last one is cut short"
        );
        return;
    }
    let mut out = [0u8; 128];
    let written = answer(bytes, n, &mut out);
    if let Err(error) = rt.write_all(&out[..written]) {
        complain(&rt, "fold: standard output", error);
        return;
    }
    let good = program_status::is_good(&out[..written]);
    tell_status(&rt, good);
}
