// Replays a script of class calls from standard input.
#![tactic(auto)]

use paper::SITES;
use run_script::{LINE, ROOM};
use std::io;

// What is read at once.
const CHUNK: usize = 65536;

fn main(rt: HostRuntime) -> io::Result<()> {
    let mut parents = [0u16; SITES];
    let mut ranks = [0u8; SITES];
    let mut count: u16 = 0;
    let mut members = [0u16; SITES];
    let mut line = [0u8; LINE];
    let mut out = [0u8; ROOM];
    let mut bytes = [0u8; CHUNK];
    run_script::run_in(
        &mut rt.stdin(),
        &mut rt.stdout(),
        &mut parents,
        &mut ranks,
        &mut count,
        &mut members,
        &mut line,
        &mut out,
        &mut bytes,
    )
}
