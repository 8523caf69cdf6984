// A line of printed text that is being made.
ghost use Rattle.std.specs.Prelude.{◌≡◌, ◌+◌, ◌≤◌, [], ◌++◌, length, decimal};
ghost use Rattle.table_model.specs.Text.{note_text, place_text, row_text, front_text, first_line, refused_text, why_text};
ghost use Rattle.script_lang.specs.Views.{reply_of};

use crate::commands::Answer;
use geo_base::{Coord, NOTE_ROOM, Note, Point, Row};
use itoa::Buffer;
use std::marker::Model;
use table_model::Why;

// The longest line is that of an old row: 20 and 20 digits, 5 and 5 digits, a note and some words.
const LINE_ROOM: usize = 128;

/// Contracts see its bytes.
#[derive(Drop)]
pub struct PrintedLine {
    room: [u8; LINE_ROOM],
    len: usize,
}

impl Model for PrintedLine {
    ghost use Rattle.std.specs.Prelude.{ℕ, List, take, ◌≤◌};
    ghost use Rattle.script_lang.specs.declared.printed_line.TheConstants.{LINE_ROOM};

    ghost Value = { List ℕ };

    ghost view = { λ l. take l.len l.room };

    ghost invariant = { λ l. l.len ≤ LINE_ROOM };
}

impl PrintedLine {
    fn new() -> Self
        ensures { result ≡ [] }
    {
        PrintedLine {
            room: [0; LINE_ROOM],
            len: 0,
        }
    }

    pub fn bytes(&self) -> &[u8]
        ensures { result.now ≡ self.now }
    {
        &self.room[..self.len]
    }

    fn text(&mut self, bytes: &[u8])
        requires { length self.old + length bytes.now ≤ LINE_ROOM }
        ensures text { self.new ≡ self.old ++ bytes.now }
        ensures len { length self.new ≡ length self.old + length bytes.now }
    {
        let end = self.len + bytes.len();
        self.room[self.len..end].copy_from_slice(bytes);
        self.len = end;
    }

    fn number(&mut self, number: u64)
        requires { length self.old + 20 ≤ LINE_ROOM }
        ensures text { self.new ≡ self.old ++ decimal number }
        ensures len { length self.new ≤ length self.old + 20 }
    {
        let mut digits = Buffer::new();
        self.text(digits.format(number).as_bytes());
    }

    fn coordinate(&mut self, coordinate: Coord)
        requires { length self.old + 5 ≤ LINE_ROOM }
        ensures text { self.new ≡ self.old ++ decimal coordinate }
        ensures len { length self.new ≤ length self.old + 5 }
    {
        let mut digits = Buffer::new();
        self.text(digits.format(coordinate).as_bytes());
    }

    fn note(&mut self, note: &Note)
        requires { length self.old + NOTE_ROOM ≤ LINE_ROOM }
        ensures text { self.new ≡ self.old ++ note_text note.now }
        ensures len { length self.new ≤ length self.old + NOTE_ROOM }
    {
        if note.bytes().is_empty() {
            self.text(b"-");
        } else {
            self.text(note.bytes());
        }
    }

    fn place(&mut self, point: Point, note: &Note)
        requires { length self.old + 12 + NOTE_ROOM ≤ LINE_ROOM }
        ensures text { self.new ≡ self.old ++ place_text point note.now }
        ensures len { length self.new ≤ length self.old + 12 + NOTE_ROOM }
    {
        self.coordinate(point.x);
        self.text(b" ");
        self.coordinate(point.y);
        self.text(b" ");
        self.note(note);
    }
}

impl PrintedLine {
    // PLACE LANE and a space
    fn front(place: u64, lane: u32) -> Self
        ensures text { result ≡ front_text place lane }
        ensures len { length result ≤ 42 }
    {
        let mut line = PrintedLine::new();
        line.number(place);
        line.text(b" ");
        line.number(u64::from(lane));
        line.text(b" ");
        line
    }

    /// The first line of an answer, which is the only one but for rows.
    pub fn answer(place: u64, lane: u32, answer: &Answer) -> Self
        ensures { result ≡ front_text place lane ++ first_line (reply_of answer.now) }
    {
        let mut line = PrintedLine::front(place, lane);
        match answer {
            Answer::PutNew => line.text(b"put new\n"),
            Answer::PutOld(point, note) => {
                line.text(b"put old ");
                line.place(*point, note);
                line.text(b"\n");
            }
            Answer::DelNone => line.text(b"del none\n"),
            Answer::DelOld(point, note) => {
                line.text(b"del old ");
                line.place(*point, note);
                line.text(b"\n");
            }
            Answer::GetNone => line.text(b"get none\n"),
            Answer::GetOld(point, note) => {
                line.text(b"get ");
                line.place(*point, note);
                line.text(b"\n");
            }
            Answer::Counted(keys) => {
                line.text(b"count ");
                line.number(*keys);
                line.text(b"\n");
            }
            Answer::Rows(rows) => {
                line.text(b"region ");
                line.number(rows.len() as u64);
                line.text(b"\n");
            }
        }
        line
    }

    /// The line of a row of an answer.
    pub fn row(row: &Row) -> Self
        ensures { result ≡ row_text row.now }
    {
        let mut line = PrintedLine::new();
        line.text(b"= ");
        line.number(row.key);
        line.text(b" ");
        line.place(row.point, &row.note);
        line.text(b"\n");
        line
    }

    /// The line of a refused command.
    pub fn refused(lane: u32, why: Why) -> Self
        ensures { result ≡ refused_text lane why }
    {
        let mut line = PrintedLine::new();
        line.text(b"- ");
        line.number(u64::from(lane));
        line.text(b" ");
        line.text(why_word(why));
        line.text(b"\n");
        line
    }
}

fn why_word(why: Why) -> &'static [u8]
    ensures word { result.now ≡ why_text why }
    ensures short { length result.now ≤ 7 }
{
    match why {
        Why::Fault => b"fault",
        Why::Stopped => b"stopped",
        Why::Full => b"full",
        Why::NoIndex => b"noindex",
        Why::Damaged => b"damaged",
        Why::Memory => b"memory",
    }
}
