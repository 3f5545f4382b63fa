// Replays stored sheets: the sample and every ruling, with the findings that `check` has to write for each.
#![tactic(auto)]

use item_words::ITEMS_ROOM;
use run_answers::How;
use run_sheets::OUT;
use sheet_read::{KEPT_ROOM, SITES_ROOM};
use sheet_reader::STEP_ROOM;
use std::io;

// What is read at once.
const CHUNK: usize = 65536;

// Room for answers. Made apart: where an array of this length stands, a proof writes it out.
fn answers() -> [u8; OUT] {
    [0; OUT]
}

fn main(rt: HostRuntime) -> io::Result<()> {
    let mut m = [0u8; SITES_ROOM];
    let mut words = [0u64; KEPT_ROOM];
    let mut items = [0u64; ITEMS_ROOM];
    let mut table = term_table::empty();
    let mut room = [0u8; STEP_ROOM];
    let mut out = answers();
    let mut bytes = [0u8; CHUNK];
    run_sheets::run_in(
        &mut rt.stdin(),
        &mut rt.stdout(),
        How::Check,
        true,
        &mut m,
        &mut words,
        &mut items,
        &mut table,
        &mut room,
        &mut out,
        &mut bytes,
    )
}
