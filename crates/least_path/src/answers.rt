// What a search answers.

/// The weight and the output of a least reading. The weight is in ten-thousandths.
#[derive(Debug, PartialEq, Eq, Drop)]
pub struct Least {
    pub weight: u128,
    pub output: Vec<u8>,
}
