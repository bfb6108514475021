// An order that rests in a book. Its limit is in whole thousandths of a euro, its volume in shares.
#[derive(Clone, Copy, PartialEq, Eq, Debug, Default)]
pub struct Resting {
    pub number: u32,
    pub member: u8,
    pub limit: u32,
    pub volume: u32,
    pub visible: bool,
}
