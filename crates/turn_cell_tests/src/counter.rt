//! The counter, and its calls.
use turn_cell::turned::{Call, Turned};

pub enum Entry {
    /// This owner was drawn.
    Drew(u64),
    /// This owner counted, after so many counts.
    Counted(u64, u64),
}

#[derive(Drop)]
pub struct Counter {
    pub drawn: u64,
    pub counted: u64,
}

impl Turned for Counter {
    ghost use Rattle.turn_cell_tests.specs.Run.{IsRun, owner_of, is_draw, run_draws_once};

    type Entry = Entry;

    ghost stands = { λ v history. IsRun 0 0 history v.drawn v.counted };

    ghost owner = { owner_of };

    ghost draws = { is_draw };

    ghost draws_once = { λ v history run. run_draws_once 0 0 history v.drawn v.counted run };
}

/// Draws an owner.
#[derive(Drop)]
pub struct NewOwner;

impl Call<Counter> for NewOwner {
    ghost use Rattle.std.specs.Prelude.{◌≡◌, ◌<◌, length};
    ghost use Rattle.turn_cell_tests.specs.declared.counter.Entry.TheVariants.{Drew};

    type Out = u64;

    ghost may = { λ _ own history. length history < 72057594037927936 };

    ghost tells = { λ _ out entry. entry ≡ Drew out };

    fn run(self, value: &mut Counter) -> u64 {
        let owner = value.drawn;
        value.drawn += 1;
        owner
    }
}

/// Counts once, for an owner that was drawn.
#[derive(Drop)]
pub struct Count {
    pub owner: u64,
}

impl Call<Counter> for Count {
    ghost use Rattle.std.specs.Prelude.{◌≡◌, ◌<◌, length};
    ghost use Rattle.turn_cell_tests.specs.declared.counter.Entry.TheVariants.{Counted};
    ghost use Rattle.turn_cell_tests.specs.Run.{HasDrawn};

    type Out = u64;

    ghost may = { λ c own history. (length history < 72057594037927936) × HasDrawn c.owner history };

    ghost tells = { λ c out entry. entry ≡ Counted c.owner out };

    fn run(self, value: &mut Counter) -> u64 {
        let number = value.counted;
        value.counted += 1;
        number
    }
}
