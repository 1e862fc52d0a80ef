// A sheet, as the rules judge it: the counts tell of it whether it is good or not.
#[derive(Clone, Copy, PartialEq, Eq, Debug)]
pub struct Sheet {
    // the outlier cells in each of the eight parameters
    pub counts: [u16; 8],
    pub good: bool,
}
