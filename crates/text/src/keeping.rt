// The start of a line, kept in fixed memory while the line is read in pieces: of a line that is longer than there is room for, the rest is dropped.
ghost use Rattle.std.specs.Prelude.{◌≡◌, ◌==◌, ℕ, ◌≤◌, List, [], length, take};
ghost use Rattle.text.specs.Keeping.{kept_after, next_of};

use crate::lines;
use std::marker::Model;

// What is kept of a line: so many bytes at the start of the text. Its parts are public, since a method that lent it could lend it from anywhere.
#[derive(Drop)]
pub struct Kept<const ROOM: usize> {
    pub text: [u8; ROOM],
    pub count: usize,
}

impl<const ROOM: usize> Model for Kept<ROOM> {
    ghost Value = { List ℕ };

    ghost view = { λ k. take k.count k.text };

    ghost invariant = { λ k. k.count ≤ ROOM };
}

impl<const ROOM: usize> Kept<ROOM> {
    // Nothing yet.
    pub fn new() -> Self
        ensures { result ≡ [] }
    {
        Kept {
            text: [0; ROOM],
            count: 0,
        }
    }

    // The bytes of a piece from a place on, up to the next newline; where the piece goes on after it, if there is one.
    pub fn take_in(&mut self, piece: &[u8], from: usize) -> Option<usize>
        ensures value { result ≡ next_of piece.now from }
        ensures line_after { self.new ≡ kept_after ROOM self.old piece.now from }
    {
        let taken = lines::take_in(&mut self.text, self.count, piece, from);
        self.count = taken.kept;
        if taken.ended { Some(taken.at) } else { None }
    }

    pub fn is_empty(&self) -> bool
        ensures { result ≡ (length self.now == 0) }
    {
        self.count == 0
    }

    // Nothing again.
    pub fn clear(&mut self)
        ensures { self.new ≡ [] }
    {
        self.count = 0;
    }
}
