//! What reading a file answers.

/// The end packet's number, and how many orbit records, groups of ramps, ramps, clock offsets and summary rows there are;
/// no number of rows where there is no summary.
#[derive(Clone, Copy, PartialEq, Eq, Debug)]
pub struct Report {
    pub end: usize,
    pub orbits: usize,
    pub groups: usize,
    pub ramps: usize,
    pub clocks: usize,
    pub rows: Option<usize>,
}
