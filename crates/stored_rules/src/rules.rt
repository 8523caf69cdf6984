//! What a store is given from outside.

use crate::order::OrderedBy;
use crate::policy::Policy;

/// What a store is given from outside. It may be lent to several threads.
#[derive(Drop)]
pub struct Rules {
    /// Which disk components are merged.
    pub policy: Policy,
    /// The order of points along the curve.
    pub order: OrderedBy,
}
