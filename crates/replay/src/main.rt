// Replays the stored answers through the proved functions, and writes for each operation and
// number how many agree. Standard input holds the records; docs/ORACLE.md has their layout.
#![tactic(auto)]

mod input;
mod record;
mod table;

use replay_records::numbers;
use std::io;
use std::io::Read;
use table::Tally;

// The first words of a file of records, and the version of its layout.
const MAGIC: u32 = 0x3156_5351;

const VERSION: u32 = 1;

// How many bytes the head of a file has.
const HEAD: usize = 16;

// The most bytes of a record.
const MOST: usize = 8192;

// How many records a file says that it has; 0 if it is no such file.
fn records_in(head: &[u8; HEAD]) -> u32 {
    let mut words = [0; 4];
    numbers::load(head, 0, &mut words);
    match words {
        [MAGIC, VERSION, records, _] => records,
        _ => 0,
    }
}

// Goes through the records, until one is missing or too long.
fn replay_all<R: Read>(input: &mut R, records: u32) -> io::Result<Tally> {
    let mut tally = Tally::new();
    for _ in 0..records {
        let mut bytes = [0; MOST];
        let Some(record) = record::read(input, &mut bytes)? else {
            break;
        };
        tally.add(record, record::agrees(record));
    }
    Ok(tally)
}

fn main(rt: HostRuntime) -> io::Result<()> {
    let mut input = rt.reader();
    let mut head = [0; HEAD];
    input::read_full(&mut input, &mut head)?;
    let records = records_in(&head);
    let tally = replay_all(&mut input, records)?;
    tally.print(&rt, records)
}
