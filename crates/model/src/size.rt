// How long a roll is and how it is cut: its cells, the cells of a sheet, and the parameters that are measured.
#[derive(Clone, Copy, PartialEq, Eq, Debug)]
pub struct Size {
    pub cells: u16,
    pub sheet: u16,
    pub parameters: u8,
}
