use table::shape::Shape;

/// How key numbers become places: through a permutation, in tables of a shape.
#[derive_where(Clone, Copy)]
pub struct Addressing<'a, P> {
    pub permutation: &'a P,
    pub shape: Shape,
}
