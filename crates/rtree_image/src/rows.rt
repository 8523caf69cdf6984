//! The rows of an R-tree, and their bytes.

ghost use Rattle.std.specs.Prelude.{◌≡◌, length};
ghost use Rattle.std.specs.Int.{from_be_bytes, w16, w32, w64};
ghost use Rattle.rtree_image.specs.Rows.{row_bytes, row_of};

use geo_base::Point;

/// The bytes of a row, on a leaf and above.
pub(crate) const ROW_BYTES: usize = 12;

/// A row of an R-tree.
#[derive(Clone, Copy, Debug, PartialEq, Eq)]
pub struct RtRow {
    /// Where the record is.
    pub point: Point,
    /// The record's key.
    pub key: u64,
}

pub(crate) fn coordinate_in(bytes: &[u8]) -> u16
    requires { length bytes.now ≡ 2 }
    ensures { result ≡ from_be_bytes w16 bytes.now }
{
    u16::from_be_bytes([bytes[0], bytes[1]])
}

pub(crate) fn child_in(bytes: &[u8]) -> u32
    requires { length bytes.now ≡ 4 }
    ensures { result ≡ from_be_bytes w32 bytes.now }
{
    u32::from_be_bytes([bytes[0], bytes[1], bytes[2], bytes[3]])
}

fn key_in(bytes: &[u8]) -> u64
    requires { length bytes.now ≡ 8 }
    ensures { result ≡ from_be_bytes w64 bytes.now }
{
    u64::from_be_bytes([
        bytes[0], bytes[1], bytes[2], bytes[3], bytes[4], bytes[5], bytes[6], bytes[7],
    ])
}

// The bytes of a row on a leaf.
pub(crate) fn to_bytes(row: &RtRow) -> [u8; ROW_BYTES]
    ensures { result ≡ row_bytes row.now }
{
    let [a, b] = row.point.x.to_be_bytes();
    let [c, d] = row.point.y.to_be_bytes();
    let [e, f, g, h, i, j, k, l] = row.key.to_be_bytes();
    [a, b, c, d, e, f, g, h, i, j, k, l]
}

// The row of a leaf in these bytes.
pub(crate) fn from_bytes(bytes: &[u8]) -> RtRow
    requires { length bytes.now ≡ 12 }
    ensures { result ≡ row_of bytes.now }
{
    RtRow {
        point: Point {
            x: coordinate_in(&bytes[..2]),
            y: coordinate_in(&bytes[2..4]),
        },
        key: key_in(&bytes[4..]),
    }
}
