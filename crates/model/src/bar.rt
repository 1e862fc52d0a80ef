// Cells that no sheet may cover: from one number to another, both included.
#[derive(Clone, Copy, PartialEq, Debug)]
pub struct Bar {
    pub from: u16,
    pub to: u16,
}
