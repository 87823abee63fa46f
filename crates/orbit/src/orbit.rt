//! A lawful orbit record.
use crate::items::OrbitItems;
use record::lawful::Lawful;

/// An orbit record: its twenty-two items, which keep their rules.
pub type Orbit = Lawful<OrbitItems>;

mod kind;
pub mod packing;
pub mod value;
