// Pages that are lent for reading.
ghost use Rattle.std.specs.Prelude.{◌≡◌, ◌<◌, ◌^◌, ◌++◌, [], ◌∷◌, List, ℕ, Bool, IsTrue, OnOk, is_ok};
ghost use Rattle.dev_model.specs.Lending.{Lending, StaysLent};
ghost use Rattle.dev_model.specs.Story.{WhereTold};

use crate::streams::Failed;

/// Pages of 4,096 bytes, of which some are lent for reading.
///
/// `lending` says which pages are lent, what they hold, where that is told, and how often a read has failed. `asked` relates
/// an earlier state to a later one: it has the list of the pages that were asked for in between, each with whether it was given.
///
/// A read fails only where the count of faults rises in it, or stands at the greatest u64.
pub trait Pages {
    ghost lending: { Self → Lending };

    ghost asked: { Self → Self → List (ℕ × Bool) → Type 0 };

    /// How often a read has failed, or more.
    fn faults(&self) -> u64
        ensures { result ≡ (lending self.now).faults };

    /// Fills the buffer with the bytes of a page that is lent.
    fn read_page(&mut self, page: u32, buf: &mut [u8; 4096]) -> Result<(), Failed>
        requires { IsTrue ((lending self.old).lent page) }
        ensures bytes { OnOk result (WhereTold (lending self.old).contents (λ contents. buf.new ≡ contents page)) }
        ensures asked { asked self.old self.new ((page, is_ok result) ∷ []) }
        ensures stays { StaysLent (lending self.old) (lending self.new) result };

    /// Page numbers fit their type.
    ghost lent_fits: { (pages : Self) (page : ℕ) → IsTrue ((lending pages).lent page) → page < 2 ^ 32 };

    /// No call asks for no page.
    ghost asked_none: { (pages : Self) → asked pages pages [] };

    /// What was asked for, and then more.
    ghost asked_then: { (first second third : Self) (xs ys : List (ℕ × Bool)) →
        asked first second xs → asked second third ys → asked first third (xs ++ ys) };
}
