// A measured value of one parameter.
#[derive(Clone, Copy, PartialEq, Debug)]
pub struct Reading {
    // from 1 to 8
    pub parameter: u8,
    // the line after so many cells, from 0 on
    pub position: u16,
    pub value: f32,
}

// What a place may hold before it is used; no parameter has the number 0.
pub const BLANK: Reading = Reading {
    parameter: 0,
    position: 0,
    value: 0.0,
};
