// Elements: a rectangle with the number of its shape. An element's records are read one after the other, and so are the elements.
ghost use Rattle.std.specs.Prelude.{◌≡◌, ◌+◌, ◌*◌, IfOk, OnOk};
ghost use Rattle.gds_elements.specs.Elements.{PropertyTold, ElementTold, ElementsTold};

use gds_data::{piece_from, shape_number};
use gds_records::{Kind, Records};
use piece_lines::Pieces;
use rules::{Piece, Refused};

// The shape number of the next element's property, up to the cap.
#[tactic(auto, unfolding(rules::specs::Stream::read_property))]
fn read_property(records: &mut Records) -> Result<u32, Refused>
    ensures property { PropertyTold records.old.number records.old.rest.now records.new.rest.now result }
    ensures number { OnOk result (records.new.number ≡ records.old.number + 3) }
{
    records.pass(&[Kind::Propattr])?;
    let digits = records.read(Kind::Propvalue)?;
    records.pass(&[Kind::Endel])?;
    Ok(shape_number(digits))
}

// The piece of the next element.
#[tactic(auto, unfolding(rules::specs::Stream::read_element))]
fn read_element(records: &mut Records) -> Result<Piece, Refused>
    ensures element { ElementTold records.old.number records.old.rest.now records.new.rest.now result }
    ensures number { OnOk result (records.new.number ≡ records.old.number + 7) }
{
    records.pass(&[Kind::Boundary, Kind::Layer, Kind::Datatype])?;
    let points = records.read(Kind::Xy)?;
    let shape = read_property(records)?;
    Ok(piece_from(points, shape))
}

// How many elements there are, with the pieces of the first 512. The rules count more than they keep, so the count is not the list's length.
#[derive(Clone, Copy, Drop)]
pub struct Elements {
    pub count: usize,
    pub pieces: Pieces,
}

// The elements from the next record on, as long as there are any. More than 512 are counted, and not stored. After a
// refusal it is not said how far the reader has come.
pub fn read_elements(records: &mut Records) -> Result<Elements, Refused>
    ensures elements { ElementsTold records.old.number records.old.rest.now records.new.rest.now result }
    ensures number { IfOk result (λ es. records.new.number ≡ records.old.number + 7 * es.count) }
{
    let mut elements = Elements {
        count: 0,
        pieces: Pieces::none(),
    };
    while records.is_due(Kind::Boundary) {
        let piece = read_element(records)?;
        if elements.count < Piece::COUNT_GREATEST {
            elements.pieces.push(piece);
        }
        elements.count += 1;
    }
    Ok(elements)
}
