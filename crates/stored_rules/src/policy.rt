//! Which disk components of an index are merged: a choice that is given from outside, and the usual one.

ghost use Rattle.std.specs.Prelude.{◌≡◌, ◌≤◌, length, position, nat_lt};
ghost use Rattle.stored_rules.specs.Ranges.{IsRange, AnswersRanges};
ghost use Rattle.stored_rules.specs.Prefix.{prefix_range};

/// An index has at most so many disk components.
pub const MOST_COMPONENTS: usize = 16;

/// A function that chooses components by their row counts, made by the caller.
pub type Choice = Box<dyn Fn(&[u64]) -> Option<(usize, usize)> + Send + Sync>;

/// A choice of components to merge, which is known to answer none, or at least two that stand side by side.
#[derive(Drop)]
pub struct Policy {
    /// The function that was kept.
    pub choice: Choice,
    ghost callable: { Choice.IsAlwaysCallable choice },
    ghost answers: { AnswersRanges (λ rows r. Choice.post choice rows r) },
}

impl Policy {
    /// Keeps a function whose every answer for the row counts of at most [`MOST_COMPONENTS`] components, the newest
    /// first, is None or the range of at least two of them: from the first to one past the last.
    pub fn new(choice: Choice) -> Self
        requires callable { IsAlwaysCallable choice }
        requires answers { AnswersRanges (λ rows r. post choice rows r) }
        ensures { result.choice ≡ choice }
    {
        Policy { choice }
    }

    /// Which components to merge, of those with these row counts, the newest first.
    pub fn ask(&self, rows: &[u64]) -> Option<(usize, usize)>
        requires { length rows.now ≤ MOST_COMPONENTS }
        ensures range { IsRange (length rows.now) result }
        ensures asked { Choice.post self.now.choice rows.entry result }
    {
        (self.choice)(rows)
    }
}

// The newest component with more rows than that.
fn first_large(rows: &[u64], most_rows: u64) -> Option<usize>
    ensures { result ≡ position (λ n. nat_lt most_rows n) rows.now }
{
    rows.iter().position(|count| *count > most_rows)
}

/// The newest components with at most `most_rows` rows each, up to the first with more, where these are at least
/// `count`. So a policy may be made of it.
pub fn prefix_rule(rows: &[u64], most_rows: u64, count: usize) -> Option<(usize, usize)>
    requires { 2 ≤ count }
    ensures exactly { result ≡ prefix_range rows.now most_rows count }
    ensures range { IsRange (length rows.now) result }
{
    let small = first_large(rows, most_rows).unwrap_or(rows.len());
    if small >= count {
        Some((0, small))
    } else {
        None
    }
}
