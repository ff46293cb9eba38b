// The table of what was seen and what agreed.
ghost use Rattle.std.specs.Prelude.{◌<◌};

use replay_records::operation::Operation;
use replay_records::record::Record;
use std::io;

// How many operations and numbers the table has.
const OPERATIONS: u8 = 32;

const NUMBERS: u8 = 32;

// How often an operation and a number were seen, and how often they agreed, at operation × 32 + number.
#[derive(Drop)]
pub struct Tally {
    seen: [u64; 1024],
    agreed: [u64; 1024],
}

// The place of an operation and a number.
fn place(operation: u8, number: u8) -> usize
    ensures { result < 1024 }
{
    usize::from(operation % OPERATIONS) * 32 + usize::from(number % NUMBERS)
}

// The sum of counts.
fn total(counts: &[u64; 1024]) -> u64 {
    counts.iter().fold(0, |sum, n| sum.wrapping_add(*n))
}

impl Tally {
    // Nothing seen.
    pub fn new() -> Tally {
        Tally {
            seen: [0; 1024],
            agreed: [0; 1024],
        }
    }

    // One more record.
    pub fn add(&mut self, record: Record, agrees: bool) {
        let at = place(record.code(), record.at(5));
        self.seen[at] = self.seen[at].wrapping_add(1);
        self.agreed[at] = self.agreed[at].wrapping_add(u64::from(agrees));
    }

    // Writes a line for an operation and a number, if they have been seen.
    fn print_line(&self, rt: &impl Print, operation: u8, number: u8) -> io::Result<()> {
        let at = place(operation, number);
        let seen = self.seen[at];
        let agreed = self.agreed[at];
        if seen == 0 {
            return Ok(());
        }
        match Operation::try_from(operation) {
            Ok(name) => println!(rt; "{name} {number}: {agreed} of {seen}"),
            Err(unknown) => println!(rt; "{unknown} {number}: {agreed} of {seen}"),
        }
    }

    // Writes the table, how many records there are and how many agree.
    pub fn print(&self, rt: &impl Print, records: u32) -> io::Result<()> {
        for operation in 0..OPERATIONS {
            for number in 0..NUMBERS {
                self.print_line(rt, operation, number)?;
            }
        }
        let agree = total(&self.agreed);
        println!(rt; "{records} records, {agree} agree")
    }
}
