// XY: whether five points go around a rectangle, and the piece of two opposite corners. The four bytes of a coordinate are read without
// their sign: equal ones stay equal, and a negative one lies above every range.
ghost use Rattle.std.specs.Prelude.{◌≡◌, ◌+◌, ◌*◌, ◌≤◌, length};
ghost use Rattle.rules.specs.Stream.{is_rectangle, point_at};
ghost use Rattle.gds_data.specs.Rectangles.{word_point, corner_piece};

use byteorder::{BigEndian, ByteOrder};
use rules::Piece;

#[derive(Clone, Copy, PartialEq, Eq, Debug)]
struct Point {
    x: u32,
    y: u32,
}

// The point with this number, from 0.
#[tactic(auto, using(crate::proofs::WordLaws::word_read))]
fn point_at(bytes: &[u8], i: usize) -> Point
    requires { 8 * i + 8 ≤ length bytes.now }
    ensures { result ≡ word_point bytes.now i }
{
    Point {
        x: BigEndian::read_u32(&bytes[8 * i..]),
        y: BigEndian::read_u32(&bytes[8 * i + 4..]),
    }
}

// The first point and the third are opposite corners; the others are at the other two, either way round, and at the first again.
#[tactic(auto, using(crate::proofs::RectangleLaws::of_corners, crate::proofs::RectangleLaws::no_width, crate::proofs::RectangleLaws::no_height))]
pub fn is_rectangle(bytes: &[u8]) -> bool
    requires { length bytes.now ≡ 40 }
    ensures { result ≡ is_rectangle bytes.now }
{
    let a = point_at(bytes, 0);
    let b = point_at(bytes, 1);
    let c = point_at(bytes, 2);
    let d = point_at(bytes, 3);
    let e = point_at(bytes, 4);
    let p = Point { x: a.x, y: c.y };
    let q = Point { x: c.x, y: a.y };
    if a.x == c.x || a.y == c.y {
        return false;
    }
    (b, d, e) == (p, q, a) || (b, d, e) == (q, p, a)
}

// The piece between the first point and the third. A stream fixes no masks.
pub fn piece_from(bytes: &[u8], shape: u32) -> Piece
    requires { length bytes.now ≡ 40 }
    ensures { result ≡ corner_piece (point_at bytes.now 0) (point_at bytes.now 2) shape }
{
    let a = point_at(bytes, 0);
    let c = point_at(bytes, 2);
    Piece::from([
        shape,
        a.x.min(c.x),
        a.y.min(c.y),
        a.x.max(c.x),
        a.y.max(c.y),
    ])
}
