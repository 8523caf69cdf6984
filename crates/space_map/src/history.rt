//! A law of first fit over any reservations and releases.

ghost use Rattle.space_map.specs.History.{FirstFitStaysNear};

/// What is reserved never ends further on than the sum of all lengths that were ever reserved behind the first data
/// page. It holds of every history of a map in which nothing was taken by `take`, since `reserve` takes the first fit
/// and so begins at or before the end of what is reserved.
pub fn first_fit_stays_near()
    ensures { FirstFitStaysNear }
{}
