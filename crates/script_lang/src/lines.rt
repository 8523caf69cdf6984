// The lines of the language.
ghost use Rattle.std.specs.Prelude.{◌≡◌, None, Some};
ghost use Rattle.std.specs.Option.{option_map};
ghost use Rattle.script_lang.specs.Words.{words_of};
ghost use Rattle.script_lang.specs.Grammar.{put_line, del_line, get_line, region_line, meaning_of, meaning_of_words, read_by, forms, or_bad, at_end, step};
ghost use Rattle.script_lang.specs.CommandViews.{command_of, meaning_as};

use crate::commands::Command;
use crate::fields::{key_field, kind_field, rect_field, row_field};
use crate::limits::MOST_LINE;
use crate::words::{first_word, is_end, trimmed};

/// What a line says: nothing, or a command, or nothing in the language.
#[derive(Drop)]
pub enum Meaning {
    Nothing,
    Step(Command),
    Bad,
}

#[tactic(auto, unfolding(crate::specs::Grammar::put_line))]
fn put_fields(text: &[u8]) -> Meaning
    ensures { meaning_as result ≡ or_bad (put_line (words_of text.now)) }
{
    match row_field(text) {
        Some((row, rest)) if is_end(rest) => Meaning::Step(Command::Put(row)),
        _ => Meaning::Bad,
    }
}

#[tactic(auto, unfolding(crate::specs::Grammar::del_line))]
fn del_fields(text: &[u8]) -> Meaning
    ensures { meaning_as result ≡ or_bad (del_line (words_of text.now)) }
{
    match key_field(text) {
        Some((key, rest)) if is_end(rest) => Meaning::Step(Command::Del(key)),
        _ => Meaning::Bad,
    }
}

#[tactic(auto, unfolding(crate::specs::Grammar::get_line))]
fn get_fields(text: &[u8]) -> Meaning
    ensures { meaning_as result ≡ or_bad (get_line (words_of text.now)) }
{
    match key_field(text) {
        Some((key, rest)) if is_end(rest) => Meaning::Step(Command::Get(key)),
        _ => Meaning::Bad,
    }
}

// A command that has no fields.
fn without_fields(command: Command, text: &[u8]) -> Meaning
    ensures { meaning_as result ≡ or_bad (at_end (step (command_of command)) (words_of text.now)) }
{
    if is_end(text) {
        Meaning::Step(command)
    } else {
        Meaning::Bad
    }
}

#[tactic(auto, unfolding(crate::specs::Grammar::region_line))]
fn region_fields(text: &[u8]) -> Meaning
    ensures { meaning_as result ≡ or_bad (region_line (words_of text.now)) }
{
    let Some((kind, rest)) = kind_field(text) else {
        return Meaning::Bad;
    };
    match rect_field(rest) {
        Some((rect, rest)) if is_end(rest) => Meaning::Step(Command::Region(kind, rect)),
        _ => Meaning::Bad,
    }
}

#[tactic(auto, unfolding(crate::specs::Grammar::read_by, crate::specs::Grammar::count_line, crate::specs::Grammar::flush_line))]
fn line_by_verb(verb: &[u8], text: &[u8]) -> Meaning
    ensures { meaning_as result ≡ or_bad (read_by forms verb.now (words_of text.now)) }
{
    if verb == b"put".as_slice() {
        return put_fields(text);
    }
    if verb == b"del".as_slice() {
        return del_fields(text);
    }
    if verb == b"get".as_slice() {
        return get_fields(text);
    }
    if verb == b"count".as_slice() {
        return without_fields(Command::Count, text);
    }
    if verb == b"region".as_slice() {
        return region_fields(text);
    }
    if verb == b"flush".as_slice() {
        return without_fields(Command::Flush, text);
    }
    Meaning::Bad
}

const COMMENT: u8 = b'#';

#[tactic(auto, unfolding(crate::specs::Grammar::meaning_of_words))]
fn plain_meaning(line: &[u8]) -> Meaning
    ensures { meaning_as result ≡ meaning_of_words (words_of line.now) }
{
    let Some((verb, rest)) = first_word(line) else {
        return Meaning::Nothing;
    };
    if !verb.is_empty() && verb[0] == COMMENT {
        return Meaning::Nothing;
    }
    line_by_verb(verb, rest)
}

/// What a line says, which is given without its line feed.
#[tactic(auto, unfolding(crate::specs::Grammar::meaning_of))]
pub fn line_meaning(line: &[u8]) -> Meaning
    ensures { meaning_as result ≡ meaning_of line.now }
{
    let line = trimmed(line);
    if line.len() > MOST_LINE {
        return Meaning::Bad;
    }
    plain_meaning(line)
}
