//! The bytes of a row on a leaf: key 8, anti 1, length of the note 1, x 2, y 2, and the note's room.

ghost use Rattle.std.specs.Prelude.{◌≡◌, ◌<◌, ◌^◌, ◌++◌, ◌-◌, ◌≤◌, length, replicate};
ghost use Rattle.std.specs.Int.{to_be_bytes, from_be_bytes, w16, w64};
ghost use Rattle.geo_base.specs.Notes.{IsNote};
ghost use Rattle.btree_image.specs.Rows.{IsStored};
ghost use Rattle.primary_ix.specs.Rows.{prim_layout, row_bytes, head_bytes, note_room, row_of, note_in, point_in};

use crate::rows::PrimRow;
use geo_base::{NOTE_ROOM, Note, Point};

/// The bytes of a key, on a leaf and above.
pub(crate) const KEY_BYTES: usize = 8;

/// 1 in an anti row, and else 0.
const ANTI_AT: usize = 8;

/// The bytes of the note.
const LENGTH_AT: usize = 9;

const POINT_AT: usize = 10;

const NOTE_AT: usize = 14;

/// The bytes of a row on a leaf.
const ROW_BYTES: usize = 78;

pub(crate) fn key_in(bytes: &[u8]) -> u64
    requires { length bytes.now ≡ 8 }
    ensures { result ≡ from_be_bytes w64 bytes.now }
{
    u64::from_be_bytes([
        bytes[0], bytes[1], bytes[2], bytes[3], bytes[4], bytes[5], bytes[6], bytes[7],
    ])
}

fn point_bytes(point: Point) -> [u8; 4]
    ensures bytes { result ≡ to_be_bytes w16 point.x ++ to_be_bytes w16 point.y }
    ensures x { point.x < 2 ^ 16 }
    ensures y { point.y < 2 ^ 16 }
{
    let [i, j] = point.x.to_be_bytes();
    let [k, l] = point.y.to_be_bytes();
    [i, j, k, l]
}

fn note_length(note: &Note) -> u8
    ensures length { result ≡ length note.now }
    ensures note { IsNote note.now }
{
    note.bytes().len() as u8
}

// The bytes before the note.
fn head(row: &PrimRow) -> [u8; NOTE_AT]
    ensures bytes { result ≡ head_bytes row.now }
    ensures stored { IsStored prim_layout row.now }
{
    let [a, b, c, d, e, f, g, h] = row.key.to_be_bytes();
    match &row.matter {
        None => [a, b, c, d, e, f, g, h, 1, 0, 0, 0, 0, 0],
        Some((point, note)) => {
            let [i, j, k, l] = point_bytes(*point);
            [a, b, c, d, e, f, g, h, 0, note_length(note), i, j, k, l]
        }
    }
}

// A note, and zeros to the end of its room.
fn filled_up(note: &[u8]) -> [u8; NOTE_ROOM]
    requires { length note.now ≤ NOTE_ROOM }
    ensures { result ≡ note.now ++ replicate (NOTE_ROOM - length note.now) 0 }
{
    let mut room = [0; NOTE_ROOM];
    room[..note.len()].copy_from_slice(note);
    room
}

// The room of a row's note.
fn room(row: &PrimRow) -> [u8; NOTE_ROOM]
    ensures { result ≡ note_room row.now.matter }
{
    match &row.matter {
        None => [0; NOTE_ROOM],
        Some((_, note)) => filled_up(note.bytes()),
    }
}

pub(crate) fn write_row(row: &PrimRow, out: &mut [u8])
    requires { length out.old ≡ ROW_BYTES }
    ensures bytes { out.new ≡ row_bytes row.now }
    ensures stored { IsStored prim_layout row.now }
{
    out[..NOTE_AT].copy_from_slice(&head(row));
    out[NOTE_AT..].copy_from_slice(&room(row));
}

fn point_in(bytes: &[u8]) -> Point
    requires { length bytes.now ≡ ROW_BYTES }
    ensures { result ≡ point_in bytes.now }
{
    Point {
        x: u16::from_be_bytes([bytes[POINT_AT], bytes[POINT_AT + 1]]),
        y: u16::from_be_bytes([bytes[POINT_AT + 2], bytes[POINT_AT + 3]]),
    }
}

// The note, unless it is longer than its room, or breaks the rule of a note.
fn note_in(bytes: &[u8]) -> Option<Note>
    requires { length bytes.now ≡ ROW_BYTES }
    ensures { result ≡ note_in bytes.now }
{
    let len = usize::from(bytes[LENGTH_AT]);
    if len > NOTE_ROOM {
        return None;
    }
    match Note::new(&bytes[NOTE_AT..NOTE_AT + len]) {
        Ok(note) => Some(note),
        Err(_) => None,
    }
}

pub(crate) fn read_row(bytes: &[u8]) -> Option<PrimRow>
    requires { length bytes.now ≡ ROW_BYTES }
    ensures { result ≡ row_of bytes.now }
{
    let note = note_in(bytes)?;
    let key = key_in(&bytes[..ANTI_AT]);
    match bytes[ANTI_AT] {
        0 => Some(PrimRow {
            key,
            matter: Some((point_in(bytes), note)),
        }),
        1 => Some(PrimRow { key, matter: None }),
        _ => None,
    }
}
