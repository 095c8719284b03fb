//! The members of a SET OF, which are put in order after the last (X.691 22).

ghost use Rattle.std.specs.Prelude.{◌≡◌, [], ◌∷◌, ◌++◌, ◌<◌, length, OnOk, slice_index_or};
ghost use Rattle.per_core.specs.Canon.{ascending};
ghost use Rattle.per_enc.specs.Members.{AreKeyed, pieces_of, writers_of};

use per_bits::BitReader;
use per_bits::per::complete;
use per_pieces::Pieces;
use std::alloc::{AllocError, Allocator};
use std::marker::Model;

/// A member that was written by itself.
#[derive(Drop)]
struct Member<A: Allocator> {
    /// What was written.
    pieces: Pieces<A>,
    /// Its complete encoding.
    key: Vec<u8, A>,
}

/// Members that were written by themselves, each once.
#[derive(Drop)]
pub struct Members<A: Allocator> {
    list: Vec<Member<A>, A>,
}

impl<A: Allocator> Model for Members<A> {
    ghost use Rattle.std.specs.Prelude.{List};
    ghost use Rattle.per_pieces.specs.Pieces.{Piece};
    ghost use Rattle.per_enc.specs.Members.{AreKeyed, pieces_of};

    ghost Value = { List (List Piece) };

    ghost view = { λ a. pieces_of a.list.items };

    ghost invariant = { λ a. AreKeyed a.list.items };
}

impl<A: Allocator> Members<A> {
    /// No members. They take no memory yet.
    pub fn new(alloc: A) -> Self
        ensures { result ≡ [] }
    {
        Members {
            list: Vec::new(alloc),
        }
    }

    /// How many members there are.
    pub fn len(&self) -> usize
        ensures { result ≡ length self.now }
    {
        self.list.len()
    }

    /// What was written of the member at a place, the first at 0.
    pub fn at(&self, place: usize) -> &Pieces<A>
        requires { place < length self.now }
        ensures { result.now.list ≡ slice_index_or self.now place result.now.list }
    {
        &self.list[place].pieces
    }

    /// Puts the members in ascending order of their complete encodings (X.691 22). The only error is want of memory.
    pub fn sort(&mut self) -> Result<(), AllocError>
        ensures { OnOk result (writers_of self.new ≡ ascending (writers_of self.old)) }
    {
        self.list.sort_by(|a, b| a.key.cmp(&b.key))?;
        Ok(())
    }
}

impl<A: Allocator + Clone> Members<A> {
    /// A further member, after the others. The only error is want of memory.
    pub fn push(&mut self, pieces: Pieces<A>) -> Result<(), AllocError>
        ensures { OnOk result (self.new ≡ self.old ++ pieces.list ∷ []) }
    {
        let bits = pieces.to_placed()?;
        let key = complete(pieces.bits().allocator().clone()?, BitReader::new(&bits))?;
        self.list.push(Member { pieces, key })?;
        Ok(())
    }
}
