// What the calls and questions answer.

// An accepted clearing.
#[derive(Clone, Copy, Default, PartialEq, Eq, Debug)]
pub struct Cleared {
    pub clearing: u32,
    pub net: i128,
    pub reserve: i128,
    pub worst: u32,
    pub gap: i128,
    pub weights: u32,
}

#[derive(Clone, Copy, PartialEq, Eq, Debug)]
pub struct Balance {
    pub cash: i128,
    pub held: i64,
}

#[derive(Clone, Copy, PartialEq, Eq, Debug)]
pub struct Standing {
    pub cash: i128,
    pub reserve: i128,
    pub clearings: u32,
    // told as a flag: what the report says is told when it is published
    pub report_owed: bool,
}
