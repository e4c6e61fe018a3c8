/// Which literal of which clause.
#[derive(Clone, Copy)]
pub struct Place {
    pub clause: u32,
    pub literal: u32,
}
