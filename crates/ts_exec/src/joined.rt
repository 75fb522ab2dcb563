//! Joins adjacent pieces of raw points, or of one rule, so that their columns or cells are searched once.
ghost use Rattle.std.specs.Prelude.{◌≡◌, ◌∷◌};
ghost use Rattle.std.specs.Iterator.{YieldsFirst, item_count};
ghost use Rattle.ts_exec.specs.JoinedPieces.{is_same_source, are_adjacent, joined_pieces, joined_onto};

use std::marker::Model;
use ts_check::{Piece, PieceSource};

/// Returns true if both pieces are of raw points, or of one rule.
fn have_one_source(piece: &Piece, next: &Piece) -> bool
    ensures { result ≡ is_same_source piece.now.source next.now.source }
{
    match (&piece.source, &next.source) {
        (PieceSource::Raw, PieceSource::Raw) => true,
        (PieceSource::Rollup(name), PieceSource::Rollup(other)) => name.as_str() == other.as_str(),
        _ => false,
    }
}

/// Returns true if both pieces have one source, and the second starts where the first ends.
fn are_adjacent(piece: &Piece, next: &Piece) -> bool
    ensures { result ≡ are_adjacent piece.now next.now }
{
    have_one_source(piece, next)
        && piece.to == next.from
        && piece.from <= piece.to
        && next.from <= next.to
}

/// Extends a piece by the adjacent ones at the start of `pieces`; returns the others.
fn extend<'p>(piece: &mut Piece, pieces: &'p [Piece]) -> &'p [Piece]
    ensures { joined_onto piece.old pieces.now ≡ piece.new ∷ joined_pieces result.now }
{
    let mut left = pieces;
    while let Some((next, others)) = left.split_first() {
        if !are_adjacent(piece, next) {
            return left;
        }
        piece.to = next.to;
        left = others;
    }
    left
}

/// Iterator over the pieces of a plan, of which adjacent ones of one source are joined. Its model is the list of those
/// that remain.
#[derive(Drop)]
pub(crate) struct JoinedPieces<'p> {
    left: &'p [Piece],
}

impl<'p> Model for JoinedPieces<'p> {
    ghost use Rattle.std.specs.Prelude.{List};
    ghost use Rattle.ts_core.specs.plans.Pieces.{Piece as PieceValue};
    ghost use Rattle.ts_exec.specs.JoinedPieces.{joined_pieces};

    ghost Value = { List PieceValue };

    ghost view = { λ j. joined_pieces j.left.now };
}

impl<'p> JoinedPieces<'p> {
    /// Joins these pieces.
    pub(crate) fn new(pieces: &'p [Piece]) -> JoinedPieces<'p>
        ensures { result ≡ joined_pieces pieces.now }
    {
        JoinedPieces { left: pieces }
    }
}

impl<'p> Iterator for JoinedPieces<'p> {
    type Item = Piece;

    ghost next_gives = { YieldsFirst (λ j. j) };

    ghost remaining = { item_count (λ j. j) };

    fn next(&mut self) -> Option<Piece> {
        let (first, others) = self.left.split_first()?;
        let mut piece = first.clone();
        self.left = extend(&mut piece, others);
        Some(piece)
    }
}
