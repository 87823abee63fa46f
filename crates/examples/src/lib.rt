//! The worked examples, as one theorem over one table.
#![tactic(auto)]

ghost use Rattle.std.specs.Prelude.{◌≡◌, length};
ghost use Rattle.examples.specs.Table.{examples, Hold};

/// The worked examples hold; answers how many there are.
pub fn worked_examples() -> usize
    ensures hold { Hold }
    ensures number { result ≡ length examples }
{
    16
}
