//! Rules that a store keeps and asks: which components are merged, and how points stand along the curve. They come from outside,
//! and what is known of each stands beside it.
#![tactic(auto)]

mod order;
mod policy;
mod rules;

pub use order::{OrderedBy, Point2, PointOrder};
pub use policy::{Choice, MOST_COMPONENTS, Policy, prefix_rule};
pub use rules::Rules;
