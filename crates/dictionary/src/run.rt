/// A run of key numbers under a value number: the first of them, how many there are, and the value.
#[derive(Clone, Copy, PartialEq, Eq, Debug)]
pub struct Run {
    pub first: u64,
    pub length: u64,
    pub value: u64,
}
