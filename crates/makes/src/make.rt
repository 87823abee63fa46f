//! A make that a program learns as it runs.
ghost use Rattle.std.specs.Prelude.{◌≡◌, MatchResult};
ghost use Rattle.makes.specs.Names.{name_of, shape_of, NoName};
ghost use Rattle.makes.specs.declared.make.UnknownMake.{UnknownMake};
ghost use Rattle.std.proofs.Common.{rules};

use crate::layout::{Block1200, Block4800, Disk, Layout};
use std::error::Error;
use std::fmt;
use std::str::FromStr;

/// One of the three makes.
#[derive(Clone, Copy, PartialEq, Eq, Debug)]
pub enum Make {
    Disk,
    Block1200,
    Block4800,
}

// The one place with an arm for each make: the numbers of each are picked here.
impl Layout for Make {
    ghost use Rattle.makes.specs.declared.make.Make.TheVariants.{Disk, Block1200, Block4800};

    ghost shape = { shape_of };

    ghost sound = { elim [ Disk ↦ Prim.search rules | Block1200 ↦ Prim.search rules | Block4800 ↦ Prim.search rules ] };

    fn block(&self) -> usize {
        match self {
            Make::Disk => Disk.block(),
            Make::Block1200 => Block1200.block(),
            Make::Block4800 => Block4800.block(),
        }
    }

    fn packets(&self) -> usize {
        match self {
            Make::Disk => Disk.packets(),
            Make::Block1200 => Block1200.packets(),
            Make::Block4800 => Block4800.packets(),
        }
    }

    fn first(&self) -> usize {
        match self {
            Make::Disk => Disk.first(),
            Make::Block1200 => Block1200.first(),
            Make::Block4800 => Block4800.first(),
        }
    }

    fn fixed(&self) -> &'static [(usize, u8)] {
        match self {
            Make::Disk => Disk.fixed(),
            Make::Block1200 => Block1200.fixed(),
            Make::Block4800 => Block4800.fixed(),
        }
    }
}

/// That a word names no make.
#[derive(Clone, Copy, PartialEq, Eq, Debug)]
pub struct UnknownMake;

impl fmt::Display for UnknownMake {
    fn fmt<W: fmt::Write>(&self, f: &mut fmt::Formatter<W>) -> fmt::Result {
        write!(f, "no such make: the makes are disk, 1200 and 4800")
    }
}

impl Error for UnknownMake {}

impl FromStr for Make {
    type Err = UnknownMake;

    ghost from_str_gives = { λ word r. MatchResult r (λ m. word ≡ name_of m) (λ _. NoName word) };

    fn from_str(word: &str) -> Result<Self, UnknownMake> {
        match word {
            "disk" => Ok(Make::Disk),
            "1200" => Ok(Make::Block1200),
            "4800" => Ok(Make::Block4800),
            _ => Err(UnknownMake),
        }
    }
}
