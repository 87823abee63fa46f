//! How the makes lay their packets out in blocks.
ghost use Rattle.std.specs.Prelude.{◌≡◌};
ghost use Rattle.makes.specs.Shapes.{Shape, Sound, disk, block1200, block4800};
ghost use Rattle.std.proofs.Common.{rules};

/// How a carrier lays its packets out in blocks.
// Four methods, and no struct of the four: where the layout's type is known each is a constant when it is compiled.
pub trait Layout: Copy {
    ghost shape: { Self → Shape };

    /// Bytes in a block.
    fn block(&self) -> usize
        ensures { result ≡ (shape self.now).block };

    /// Packets in a block.
    fn packets(&self) -> usize
        ensures { result ≡ (shape self.now).packets };

    /// Where the first packet of a block begins.
    fn first(&self) -> usize
        ensures { result ≡ (shape self.now).first };

    /// The fixed bytes of a block: place and value, in rising order of place.
    fn fixed(&self) -> &'static [(usize, u8)]
        ensures { result.now ≡ (shape self.now).fixed };

    ghost sound: { (x : Self) → Sound (shape x) };
}

/// Disk images: blocks of 8,064 bytes that are packets alone.
#[derive(Clone, Copy, PartialEq, Eq, Debug)]
pub struct Disk;

impl Layout for Disk {
    ghost shape = { λ _. disk };

    ghost sound = { λ _. Prim.search rules };

    fn block(&self) -> usize {
        8064
    }

    fn packets(&self) -> usize {
        224
    }

    fn first(&self) -> usize {
        0
    }

    fn fixed(&self) -> &'static [(usize, u8)] {
        &[]
    }
}

/// Deliveries in blocks of 1,200 bits.
#[derive(Clone, Copy, PartialEq, Eq, Debug)]
pub struct Block1200;

impl Layout for Block1200 {
    ghost shape = { λ _. block1200 };

    ghost sound = { λ _. Prim.search rules };

    fn block(&self) -> usize {
        150
    }

    fn packets(&self) -> usize {
        3
    }

    fn first(&self) -> usize {
        16
    }

    fn fixed(&self) -> &'static [(usize, u8)] {
        &[
            (15, 0),
            (124, 0x88),
            (125, 0x88),
            (126, 0x88),
            (127, 0x88),
            (128, 0x88),
            (129, 0x88),
            (130, 0x88),
            (131, 0x88),
            (132, 0x88),
            (133, 0x88),
            (134, 0x88),
            (135, 0x88),
            (136, 0x88),
            (137, 0x88),
            (138, 0x88),
            (139, 0x88),
            (140, 0x88),
            (141, 0x88),
            (142, 0x88),
            (143, 0x88),
        ]
    }
}

/// Deliveries in blocks of 4,800 bits.
#[derive(Clone, Copy, PartialEq, Eq, Debug)]
pub struct Block4800;

impl Layout for Block4800 {
    ghost shape = { λ _. block4800 };

    ghost sound = { λ _. Prim.search rules };

    fn block(&self) -> usize {
        600
    }

    fn packets(&self) -> usize {
        16
    }

    fn first(&self) -> usize {
        16
    }

    fn fixed(&self) -> &'static [(usize, u8)] {
        &[(15, 0), (592, 0x88), (593, 0x88)]
    }
}
