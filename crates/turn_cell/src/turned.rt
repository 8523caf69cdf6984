//! What a value in a cell stands for, and what a call adds.
ghost use Rattle.std.specs.Prelude.{◌≡◌, ℕ, Bool, Option, List, [], ◌∷◌, ◌++◌};

/// A value of the type stands for a list of entries.
///
/// An entry may have an owner, which one entry draws. The later entries of that owner are made by the pass that drew it.
pub trait Turned {
    ghost use Rattle.std.specs.Prelude.{ℕ, Bool, Option, List};
    ghost use Rattle.turn_cell.specs.History.{DrawsOnce};

    type Entry;

    ghost stands: { Self → List Self.Entry → Type 0 };

    // Of an entry: its owner, if it has one.
    ghost owner: { Self.Entry → Option ℕ };

    // Of an entry: whether it draws its owner.
    ghost draws: { Self.Entry → Bool };

    // A value stands for no list that draws an owner twice.
    ghost draws_once: { (v : Self) (history : List Self.Entry) → stands v history → DrawsOnce owner draws history };
}

/// A call that adds one entry to the list.
pub trait Call<V: Turned> {
    ghost use Rattle.std.specs.Prelude.{List};

    /// What the call answers.
    type Out;

    // Of the call, the entries that its pass made before, and the whole list: the call may be made.
    ghost may: { Self → List V.Entry → List V.Entry → Type 0 };

    // Of the call, its answer and the entry: the entry tells the answer.
    ghost tells: { Self → Self.Out → V.Entry → Type 0 };

    /// Makes the call. The value then stands for one entry more, which tells the answer.
    fn run(self, value: &mut V) -> Self::Out
        requires { (own : List V.Entry) × (history : List V.Entry) × V.stands value.old history × may self own history }
        ensures { (own : List V.Entry) (history : List V.Entry) → V.stands value.old history → may self own history → (entry : V.Entry) × tells self result entry × V.stands value.new (history ++ entry ∷ []) };
}
