// The places of pieces. As places are laid out, their pieces come in, and each later piece has its neighbours among them.
ghost use Rattle.std.specs.Prelude.{◌≡◌, length};

use arrayvec::ArrayVec;
use bitset::{BitSet, Matrix};

// The pieces that have come in, and their places. They are a set, and not an `Option` for each piece, since a row of the words is cut with it:
// so only the neighbours that have come in are visited.
#[derive(Drop)]
pub(crate) struct Seats {
    there: BitSet,
    places: [u16; 512],
    ghost room: { length places ≡ 512 },
}

impl Seats {
    ghost use Rattle.std.specs.Prelude.{false, ◌++◌, ◌≡◌, ℕ, ◌+◌, ◌≤◌, ◌<◌, length};
    ghost use Rattle.bitset.specs.Bits.{member};
    ghost use Rattle.adjacency.specs.Members.{members_of};
    ghost use Rattle.places.specs.Seats.{Seated, piece_entries, place_entries};

    // No piece has come in.
    pub(crate) fn none() -> Seats
        ensures { (q : ℕ) → member result.there q ≡ false }
    {
        Seats {
            there: BitSet::empty(),
            places: [0; 512],
        }
    }

    // The pieces come in, and their place is k.
    pub(crate) fn seat(&mut self, pieces: &BitSet, k: usize)
        requires { k < 512 }
        ensures { Seated (members_of pieces.now) k self.old self.new }
    {
        for p in pieces.members() {
            self.there.put(p);
            self.places[p] = k as u16;
        }
    }

    // Appends the places of the pieces there that the words join to piece p. Only neighbours are visited.
    fn list_piece(&self, words: &Matrix, p: usize, list: &mut ArrayVec<u16, 131584>)
        requires p_bound { p < 512 }
        requires room { length list.old.items + length (piece_entries words.now self.now p) ≤ 131_584 }
        ensures { list.new.items ≡ list.old.items ++ piece_entries words.now self.now p }
    {
        for q in words.neighbours_in(p, &self.there).members() {
            list.push(self.places[q]);
        }
    }

    // Appends the same for each piece of a unit.
    pub(crate) fn list_place(
        &self,
        words: &Matrix,
        pieces: &BitSet,
        list: &mut ArrayVec<u16, 131584>,
    )
        requires room { length list.old.items + length (place_entries words.now self.now (members_of pieces.now)) ≤ 131_584 }
        ensures { list.new.items ≡ list.old.items ++ place_entries words.now self.now (members_of pieces.now) }
    {
        for piece in pieces.members() {
            self.list_piece(words, piece, list);
        }
    }
}
