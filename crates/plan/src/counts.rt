// How many nodes and names there are, and how many there is room for.

#[derive(Clone, Copy, Debug, PartialEq, Drop)]
pub struct Counts {
    pub nodes: u16,
    pub names: u16,
}

#[derive(Clone, Copy, Debug, PartialEq, Drop)]
pub struct Room {
    pub nodes: usize,
    pub names: usize,
}
