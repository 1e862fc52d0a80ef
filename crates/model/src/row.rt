// One row of a recipe: what a parameter may be, and how many of a thousand cells of a sheet may be outliers.
// A row is plain: whether it gives limits is asked of it each time.
#[derive(Clone, Copy, PartialEq, Debug)]
pub struct Row {
    pub low: f32,
    pub high: f32,
    pub share: u16,
}
