//! Items that keep their rules.
ghost use Rattle.std.specs.Prelude.{◌≡◌, ℕ, ◌<◌, ⊤, MatchResult};
ghost use Rattle.record.specs.Rules.{broken};
ghost use Rattle.record.specs.declared.fault.RecordFault.TheVariants.{BadItem, Forbidden};

use crate::fault::RecordFault;
use std::alloc::AllocError;

/// The items of one kind of packet as they are given, lawful or not.
pub trait Items: Copy {
    // The lowest item that breaks its rule, 0 where each is kept. The same of numbers of any size, 0 where they are a record's:
    // for some kinds the rules alone do not tell that a number has the bits of its field.
    ghost bad: { Self → ℕ };

    ghost unfit: { Self → ℕ };

    /// The lowest item that breaks its rule, if one does.
    fn bad_item(&self) -> Option<usize>
        ensures item { result ≡ broken (bad self.now) }
        ensures fits { unfit self.now ≡ bad self.now };

    ghost keeps: { (i : Self) → unfit i ≡ 0 → bad i ≡ 0 };
}

/// Items that keep their rules.
#[derive(PartialEq, Eq, Debug)]
pub struct Lawful<I: Items> {
    items: I,
    ghost lawful: { I.unfit items ≡ 0 },
}

// By hand: the check refuses to derive `Clone` here, with or without `Copy`, as the struct has a ghost field.
impl<I: Items> Clone for Lawful<I> {
    ghost is_clone = { λ x y. y ≡ x };

    ghost is_infallible = { λ _. ⊤ };

    fn clone(&self) -> Result<Self, AllocError> {
        Ok(*self)
    }
}

impl<I: Items> Copy for Lawful<I> {}

impl<I: Items> Lawful<I> {
    /// The record of these items, or the lowest that breaks its rule.
    // The number is an item; the three calls that ask put it into a fault each. A hint, since each call of it would copy the items
    // twice, which takes a fifth of the time in which a file is read.
    #[inline(always)]
    pub(crate) fn checked(items: I) -> Result<Lawful<I>, usize>
        ensures { MatchResult result (λ x. x.items ≡ items) (λ item. (0 < I.bad items) × (item ≡ I.bad items)) }
    {
        match items.bad_item() {
            None => Ok(Lawful { items }),
            Some(item) => Err(item),
        }
    }

    /// The record of these items; refused at the lowest that breaks its rule.
    // No `TryFrom`: for a type parameter it would overlap with the library's own.
    pub fn new(items: I) -> Result<Lawful<I>, RecordFault>
        ensures { MatchResult result (λ x. x.items ≡ items) (λ e. (0 < I.bad items) × (e ≡ Forbidden (I.bad items))) }
    {
        Lawful::checked(items).map_err(|item| RecordFault::Forbidden { item })
    }

    /// The record of the items that lie in the packet with this number; refused at the lowest that breaks its rule.
    pub(crate) fn read(items: I, packet: usize) -> Result<Lawful<I>, RecordFault>
        ensures { MatchResult result (λ x. x.items ≡ items) (λ e. (0 < I.bad items) × (e ≡ BadItem packet (I.bad items))) }
    {
        Lawful::checked(items).map_err(|item| RecordFault::BadItem { packet, item })
    }

    /// The items.
    pub fn items(&self) -> I
        ensures same { result ≡ self.now.items }
        ensures lawful { I.unfit result ≡ 0 }
    {
        self.items
    }
}
