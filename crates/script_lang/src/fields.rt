// The fields of a line. A field is read from the front of a text, and what is behind it is left.
ghost use Rattle.std.specs.Prelude.{◌≡◌, ◌≤◌, IfSome};
ghost use Rattle.std.specs.Option.{option_map};
ghost use Rattle.script_lang.specs.Words.{words_of};
ghost use Rattle.script_lang.specs.Grammar.{number_at, note_of, note_at, kind_of, kind_at, rect_at, row_at};

use crate::numbers::read_number;
use crate::words::first_word;
use geo_base::{Coord, IndexKind, MOST_COORDINATE, MOST_KEY, Note, Point, Rect, Row};

#[tactic(auto, unfolding(crate::specs::Grammar::number_at))]
fn number_field(text: &[u8], most: u64) -> Option<(u64, &[u8])>
    ensures bound { IfSome result (λ r. r.0 ≤ most) }
    ensures exact { option_map (λ r. (r.0, words_of r.1.now)) result ≡ number_at most (words_of text.now) }
{
    let (word, rest) = first_word(text)?;
    let number = read_number(word, most)?;
    Some((number, rest))
}

pub fn key_field(text: &[u8]) -> Option<(u64, &[u8])>
    ensures { option_map (λ r. (r.0, words_of r.1.now)) result ≡ number_at MOST_KEY (words_of text.now) }
{
    number_field(text, MOST_KEY)
}

#[tactic(auto, unfolding(crate::specs::Grammar::number_at))]
fn coordinate_field(text: &[u8]) -> Option<(Coord, &[u8])>
    ensures { option_map (λ r. (r.0, words_of r.1.now)) result ≡ number_at MOST_COORDINATE (words_of text.now) }
{
    let (number, rest) = number_field(text, u64::from(MOST_COORDINATE))?;
    Some((number as Coord, rest))
}

#[tactic(auto, unfolding(crate::specs::Grammar::note_of))]
fn note_word(word: &[u8]) -> Option<Note>
    ensures { result ≡ note_of word.now }
{
    if word == b"-".as_slice() {
        return Note::new(&[]).ok();
    }
    Note::new(word).ok()
}

#[tactic(auto, unfolding(crate::specs::Grammar::note_at))]
fn note_field(text: &[u8]) -> Option<(Note, &[u8])>
    ensures { option_map (λ r. (r.0, words_of r.1.now)) result ≡ note_at (words_of text.now) }
{
    let (word, rest) = first_word(text)?;
    let note = note_word(word)?;
    Some((note, rest))
}

#[tactic(auto, unfolding(crate::specs::Grammar::kind_of))]
fn kind_word(word: &[u8]) -> Option<IndexKind>
    ensures { result ≡ kind_of word.now }
{
    if word == b"dhvb".as_slice() {
        Some(IndexKind::Dhvb)
    } else {
        None
    }
}

#[tactic(auto, unfolding(crate::specs::Grammar::kind_at))]
pub fn kind_field(text: &[u8]) -> Option<(IndexKind, &[u8])>
    ensures { option_map (λ r. (r.0, words_of r.1.now)) result ≡ kind_at (words_of text.now) }
{
    let (word, rest) = first_word(text)?;
    let kind = kind_word(word)?;
    Some((kind, rest))
}

#[tactic(auto, unfolding(crate::specs::Grammar::rect_at))]
pub fn rect_field(text: &[u8]) -> Option<(Rect, &[u8])>
    ensures { option_map (λ r. (r.0, words_of r.1.now)) result ≡ rect_at (words_of text.now) }
{
    let (x1, rest) = coordinate_field(text)?;
    let (y1, rest) = coordinate_field(rest)?;
    let (x2, rest) = coordinate_field(rest)?;
    let (y2, rest) = coordinate_field(rest)?;
    let rect = Rect::new(x1, y1, x2, y2).ok()?;
    Some((rect, rest))
}

#[tactic(auto, unfolding(crate::specs::Grammar::row_at))]
pub fn row_field(text: &[u8]) -> Option<(Row, &[u8])>
    ensures { option_map (λ r. (r.0, words_of r.1.now)) result ≡ row_at (words_of text.now) }
{
    let (key, rest) = key_field(text)?;
    let (x, rest) = coordinate_field(rest)?;
    let (y, rest) = coordinate_field(rest)?;
    let Some((note, rest)) = note_field(rest) else {
        return None;
    };
    let point = Point { x, y };
    Some((Row { key, point, note }, rest))
}
