// A text as a fold over its lines. The definitions stand in specs/, and the laws by which a reader that takes the
// text piece by piece meets them in specs/laws; the functions here carry laws and worked examples.
#![tactic(auto)]

ghost use Rattle.std.specs.Prelude.{◌≡◌, ◌++◌, [], ◌∷◌, List, ℕ, codes, Ok, Err};
ghost use Rattle.line_fold.specs.Lines.{lines_of, ended_lines, open_line};
ghost use Rattle.line_fold.specs.Folding.{folded};
ghost use Rattle.line_fold.specs.Examples.{shorter_than_four};

/// A law: a line feed ends a line, whatever stands before and behind it.
pub fn a_feed_ends_a_line()
    ensures ended { (front rest : List ℕ) → ended_lines (front ++ 10 ∷ rest) ≡ ended_lines front ++ open_line front ∷ ended_lines rest }
    ensures all { (front rest : List ℕ) → lines_of (front ++ 10 ∷ rest) ≡ ended_lines front ++ open_line front ∷ lines_of rest }
{}

/// Worked texts and their lines, and what they are where each line has to be shorter than four bytes and is
/// counted.
pub fn worked_lines()
    ensures three { lines_of (codes "ab\n\nc") ≡ codes "ab" ∷ [] ∷ codes "c" ∷ [] }
    ensures two { lines_of (codes "ab\nc\n") ≡ codes "ab" ∷ codes "c" ∷ [] }
    ensures none { lines_of [] ≡ [] }
    ensures counted { folded 9 7 shorter_than_four (codes "ab\n\nc") 0 ≡ Ok 3 }
    ensures refused { folded 9 7 shorter_than_four (codes "ab\nlong\nc") 0 ≡ Err 1 }
    ensures past { folded 4 7 shorter_than_four (codes "ab\nc\n") 0 ≡ Err 7 }
    ensures refused_before { folded 6 7 shorter_than_four (codes "long\nab\n") 0 ≡ Err 0 }
    ensures refused_behind { folded 6 7 shorter_than_four (codes "ab\nlong\n") 0 ≡ Err 7 }
{}
