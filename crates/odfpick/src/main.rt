//! odfpick MAKE KIND K: prints the record in cell K of the carrier on standard input, item by item.
#![tactic(auto)]

mod listing;
mod problem;

use crate::listing::Listed;
use crate::problem::Problem;
use carrier::Carrier;
use makes::image::Image;
use makes::make::Make;
use odf::pick::pick;
use orbit::items::OrbitItems;
use station::clock::items::ClockItems;
use station::ramp::items::RampItems;
use std::env;
use std::io::Read;
use std::process::ExitCode;
use std::str::FromStr;

/// A kind of record, as the command line names it.
#[derive(Clone, Copy)]
enum Kind {
    Orbit,
    Ramp,
    Clock,
}

/// That a word names no kind.
#[derive(Clone, Copy)]
struct UnknownKind;

impl FromStr for Kind {
    type Err = UnknownKind;

    fn from_str(word: &str) -> Result<Kind, UnknownKind> {
        match word {
            "orbit" => Ok(Kind::Orbit),
            "ramp" => Ok(Kind::Ramp),
            "clock" => Ok(Kind::Clock),
            _ => Err(UnknownKind),
        }
    }
}

/// Picks the record of kind `K` in cell `k` and prints its items, a line each.
fn show<K: Listed, C: Carrier>(rt: &HostRuntime, carrier: &C, k: usize) -> Result<(), Problem> {
    pick::<K, C>(carrier, k)?.items().print(rt);
    Ok(())
}

fn run(rt: &HostRuntime) -> Result<(), Problem> {
    let heap = rt.alloc();
    let words: Vec<String> = match env::args(rt) {
        Ok(args) => args.collect(heap)?,
        Err(_) => return Err(Problem::Words),
    };
    let [_, make, kind, cell] = words.as_slice() else {
        return Err(Problem::Words);
    };
    let Ok(make) = make.as_str().parse::<Make>() else {
        return Err(Problem::UnknownMake(make.clone()?));
    };
    let Ok(kind) = kind.as_str().parse::<Kind>() else {
        return Err(Problem::UnknownKind(kind.clone()?));
    };
    let Ok(k) = cell.as_str().parse::<usize>() else {
        return Err(Problem::NoCell(cell.clone()?));
    };
    let mut bytes = Vec::new(heap);
    if rt.stdin().read_to_end(&mut bytes).is_err() {
        return Err(Problem::NotRead);
    }
    let image = Image::new(make, bytes.as_slice());
    // The word on the command line picks the type, so an arm for each is left.
    match kind {
        Kind::Orbit => show::<OrbitItems, _>(rt, &image, k),
        Kind::Ramp => show::<RampItems, _>(rt, &image, k),
        Kind::Clock => show::<ClockItems, _>(rt, &image, k),
    }
}

fn main(rt: HostRuntime) -> ExitCode {
    let Err(problem) = run(&rt) else {
        return ExitCode::SUCCESS;
    };
    let _ = match problem {
        Problem::Refused(_) => println!(rt; "odfpick {problem}"),
        _ => eprintln!(rt; "odfpick: {problem}"),
    };
    ExitCode::FAILURE
}
