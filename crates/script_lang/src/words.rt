// A line as words.
ghost use Rattle.std.specs.Prelude.{◌≡◌, ◌≤◌, length};
ghost use Rattle.std.specs.Option.{option_map};
ghost use Rattle.std.specs.List.{position_or_len};
ghost use Rattle.line_fold.specs.Lines.{is_nothing};
ghost use Rattle.script_lang.specs.Words.{words_of, without_return, is_blank};
ghost use Rattle.script_lang.specs.Grammar.{word_at};
ghost use Rattle.script_lang.specs.Blanks.{StartsPlain};

fn is_blank_byte(byte: u8) -> bool
    ensures { result ≡ is_blank byte }
{
    byte == b' ' || byte == b'\t'
}

/// The line without one carriage return at its end.
pub fn trimmed(line: &[u8]) -> &[u8]
    ensures { result.now ≡ without_return line.now }
{
    if !line.is_empty() && line[line.len() - 1] == b'\r' {
        &line[..line.len() - 1]
    } else {
        line
    }
}

fn without_blanks(line: &[u8]) -> &[u8]
    ensures words { words_of result.now ≡ words_of line.now }
    ensures front { StartsPlain result.now }
{
    let mut rest = line;
    while !rest.is_empty() && is_blank_byte(rest[0]) {
        rest = &rest[1..];
    }
    rest
}

fn word_len(line: &[u8]) -> usize
    ensures within { result ≤ length line.now }
    ensures exact { result ≡ position_or_len is_blank line.now }
{
    let mut len = 0;
    while len < line.len() && !is_blank_byte(line[len]) {
        len += 1;
    }
    len
}

/// The first word, and what is behind it.
pub fn first_word(line: &[u8]) -> Option<(&[u8], &[u8])>
    ensures { option_map (λ r. (r.0.now, words_of r.1.now)) result ≡ word_at (words_of line.now) }
{
    let rest = without_blanks(line);
    if rest.is_empty() {
        return None;
    }
    let len = word_len(rest);
    Some((&rest[..len], &rest[len..]))
}

/// Whether nothing but blanks is left.
pub fn is_end(line: &[u8]) -> bool
    ensures { result ≡ is_nothing (words_of line.now) }
{
    without_blanks(line).is_empty()
}
