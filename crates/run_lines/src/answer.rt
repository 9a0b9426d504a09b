//! What a machine answers a line by.

ghost use Rattle.std.specs.Prelude.{◌≡◌, ◌∷◌, ◌++◌, [], OnOk, OnErr};
ghost use Rattle.run_lines.specs.Writing.{text_of};

use host_keep::Texts;
use std::alloc::Global;
use std::marker::Model;
use zw_base::NoMemory;

/// The pieces of an answer in their order, packed into one text. Contracts see the list of them.
#[derive(Drop)]
pub struct Answer {
    texts: Texts,
}

impl Model for Answer {
    ghost use Rattle.run_lines.specs.Answer.{PieceList};

    ghost Value = { PieceList };

    ghost view = { λ p. record { items = p.texts } };
}

impl Answer {
    /// No pieces. It takes no memory.
    pub fn new(alloc: Global) -> Answer
        ensures { result.items ≡ [] }
    {
        Answer {
            texts: Texts::new(alloc),
        }
    }

    /// Adds a piece at the end.
    pub fn push(&mut self, piece: &[u8]) -> Result<(), NoMemory>
        ensures ok { OnOk result (self.new.items ≡ self.old.items ++ piece.now ∷ []) }
        ensures err { OnErr result (self.new.items ≡ self.old.items) }
    {
        self.texts.push(piece)
    }

    /// Takes all pieces away. Their room is kept.
    pub fn clear(&mut self)
        ensures { self.new.items ≡ [] }
    {
        self.texts.clear();
    }

    /// All pieces, one after the other.
    pub fn text(&self) -> &[u8]
        ensures { result.now ≡ text_of self.now.items }
    {
        self.texts.whole()
    }
}
