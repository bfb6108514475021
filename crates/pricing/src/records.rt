// What pricing answers. Limits and prices are whole thousandths of a euro, and so is a cost.

// What the shares of an order cost over the orders that count, and the limit of the last order that they reach.
#[derive(Clone, Copy, PartialEq, Eq, Debug)]
pub struct Walked {
    pub cost: u64,
    pub last: u32,
}

// What a customer's order would cost over the orders that count, the limit of the last order that it reaches, the rounded
// average, and the executor's price a share, if it is from 1 on.
#[derive(Clone, Copy, PartialEq, Eq, Debug)]
pub struct Quotation {
    pub cost: u64,
    pub last: u32,
    pub average: u32,
    pub price: Option<u64>,
}
