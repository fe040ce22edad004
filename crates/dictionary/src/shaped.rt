use table::shape::Shape;

// A table, and the shape that it is formed with.
#[derive_where(Clone, Copy)]
pub(crate) struct Shaped<'a, T> {
    pub(crate) table: &'a T,
    pub(crate) shape: Shape,
}
