use crate::side::Side;
use table::shape::Shape;

/// Of an open register: the table in use, and the widths that it is formed with.
#[derive(Clone, Copy)]
pub(crate) struct InUse {
    pub(crate) side: Side,
    pub(crate) shape: Shape,
}
