//! odfcopy FROM IN TO OUT: converts the file IN of make FROM into the file OUT of make TO.
#![tactic(auto)]

mod problem;

ghost use Rattle.std.specs.Prelude.{MatchResult};
ghost use Rattle.makes.specs.Names.{shape_of};
ghost use Rattle.makes.specs.Shapes.{cells_of};
ghost use Rattle.odfcopy.specs.Problems.{Gives, Fails};

use crate::problem::Problem;
use carrier::Carrier;
use convert::{convert, converted_length};
use makes::image::Image;
use makes::layout::{Block1200, Block4800, Disk};
use makes::make::{Make, UnknownMake};
use std::alloc::Global;
use std::process::ExitCode;
use std::{env, fs};

/// What a conversion gives: the new memory, and how many packets were copied.
#[derive(Drop)]
struct Converted {
    memory: Vec<u8>,
    packets: usize,
}

/// Converts the packets of a carrier into the smallest memory of a make that holds them.
fn convert_carrier<S: Carrier>(heap: Global, source: &S, make: Make) -> Result<Converted, Problem>
    ensures { MatchResult result (λ d. Gives (shape_of make) (S.Carrier.cells source.now) d.memory.items d.packets) (λ p. Fails (S.Carrier.cells source.now) p) }
{
    let mut memory = vec![in heap; 0u8; converted_length(source, make)]?;
    let packets = convert(source, make, memory.as_mut_slice())?;
    Ok(Converted { memory, packets })
}

/// The same of the bytes of a file.
// A function of its own, since its clause is what the program promises of files. An arm for each make, as in `convert` and
// for the same reason.
fn convert_file(heap: Global, bytes: &[u8], from: Make, to: Make) -> Result<Converted, Problem>
    ensures { MatchResult result (λ d. Gives (shape_of to) (cells_of (shape_of from) bytes.now) d.memory.items d.packets) (λ p. Fails (cells_of (shape_of from) bytes.now) p) }
{
    match from {
        Make::Disk => convert_carrier(heap, &Image::new(Disk, bytes), to),
        Make::Block1200 => convert_carrier(heap, &Image::new(Block1200, bytes), to),
        Make::Block4800 => convert_carrier(heap, &Image::new(Block4800, bytes), to),
    }
}

/// The make that a word of the command line names.
fn make_of(heap: Global, word: &str) -> Result<Make, Problem> {
    match word.parse() {
        Ok(make) => Ok(make),
        Err(UnknownMake) => Err(Problem::UnknownMake(String::from_str(heap, word)?)),
    }
}

fn run(rt: &HostRuntime) -> Result<(), Problem> {
    let heap = rt.alloc();
    let words: Vec<String> = match env::args(rt) {
        Ok(args) => args.collect(heap)?,
        Err(_) => return Err(Problem::Words),
    };
    let [_, from, input, to, output] = words.as_slice() else {
        return Err(Problem::Words);
    };
    let from_make = make_of(heap, from.as_str())?;
    let to_make = make_of(heap, to.as_str())?;
    let Ok(bytes) = fs::read(rt, input.as_str()) else {
        return Err(Problem::NotRead(input.clone()?));
    };
    let done = convert_file(heap, bytes.as_slice(), from_make, to_make)?;
    if fs::write(rt, output.as_str(), done.memory.as_slice()).is_err() {
        return Err(Problem::NotWritten(output.clone()?));
    }
    let packets = done.packets;
    let _ = println!(rt; "copied {packets} packets from {from} to {to}");
    Ok(())
}

fn main(rt: HostRuntime) -> ExitCode {
    let Err(problem) = run(&rt) else {
        return ExitCode::SUCCESS;
    };
    let _ = match problem {
        Problem::Refused(_) => println!(rt; "odfcopy {problem}"),
        _ => eprintln!(rt; "odfcopy: {problem}"),
    };
    ExitCode::FAILURE
}
