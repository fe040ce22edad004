/// The five parts that a register is assembled of: the codings of its keys and of its values, a permutation, and two tables.
#[derive(Drop)]
pub struct Parts<K, V, P, A, B> {
    pub keys: K,
    pub values: V,
    pub permutation: P,
    pub first: A,
    pub second: B,
}
