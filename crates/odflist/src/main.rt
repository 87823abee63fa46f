//! odflist: prints the groups of the file on standard input, a disk image of which the first 64,512 bytes count.
#![tactic(auto)]

ghost use Rattle.std.specs.Prelude.{◌≤◌, IfOk};

use carrier::fault::Refusal;
use groups::{GroupRow, groups};
use makes::image::Image;
use makes::layout::Disk;
use odf::fault::FileFault;
use std::io;
use std::io::Read;

/// How many bytes count: eight blocks.
const LIMIT: usize = 64_512;

/// As many rows as eight blocks have cells, so that a row is there for every group.
const ROWS: usize = 1_792;

/// Fills the buffer from standard input; answers how many bytes there were.
// A buffer of fixed size with its length, and no `Vec`: every input gets its answer, so nothing here may run out of memory.
fn read_input(rt: &HostRuntime, buffer: &mut [u8; LIMIT]) -> io::Result<usize>
    ensures { IfOk result (λ n. n ≤ 64512) }
{
    let mut length = 0;
    for _ in 0..LIMIT {
        if length >= LIMIT {
            break;
        }
        let count = rt.stdin().read(&mut buffer[length..])?;
        if count == 0 {
            break;
        }
        length += count;
    }
    Ok(length)
}

/// Prints the rows, or the fault.
fn print_answer(
    rt: &HostRuntime,
    answer: Result<usize, FileFault>,
    rows: &[GroupRow],
) -> io::Result<()> {
    match answer {
        Ok(count) => {
            for row in rows.iter().take(count) {
                println!(rt;
                    "{:>5}{:>5}{:>8}{:>8}",
                    row.key, row.secondary, row.packet, row.packets
                )?;
            }
        }
        Err(fault) => {
            let refusal = Refusal::from(fault);
            println!(rt;
                "{:>8}{:>8}{:>8}{:>8}",
                refusal.number, refusal.packet, refusal.item, refusal.byte
            )?;
        }
    }
    Ok(())
}

fn main(rt: HostRuntime) -> io::Result<()> {
    let mut buffer = [0; LIMIT];
    let length = read_input(&rt, &mut buffer)?;
    let mut rows = [GroupRow::default(); ROWS];
    let answer = groups(&Image::new(Disk, &buffer[..length]), &mut rows);
    print_answer(&rt, answer, &rows)
}
