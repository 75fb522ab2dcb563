//! Certificates: lists of pieces that may or may not be a valid plan.
ghost use Rattle.std.specs.Prelude.{◌≡◌};
ghost use Rattle.ts_check.specs.Certificates.{source_of};

use crate::rule_name::RuleName;
use std::alloc::Allocator;
use std::marker::Model;

/// Source of a piece: raw points, or the cells of a rule.
#[derive(Drop)]
pub enum PieceSource {
    /// Raw points.
    Raw,
    /// Cells of the first rule of this name.
    Rollup(RuleName),
}

impl PieceSource {
    /// Returns a copy of the source.
    fn clone(&self) -> PieceSource
        ensures { source_of result ≡ source_of self.now }
    {
        match self {
            PieceSource::Raw => PieceSource::Raw,
            PieceSource::Rollup(name) => PieceSource::Rollup(name.clone()),
        }
    }
}

/// Piece of a plan: a part of the time range, and the source of its data.
#[derive(Drop)]
pub struct Piece {
    /// Source of the data.
    pub source: PieceSource,
    /// Start, inclusive, in nanoseconds of the Unix epoch.
    pub from: i64,
    /// End, exclusive, in nanoseconds of the Unix epoch.
    pub to: i64,
}

impl Model for Piece {
    ghost use Rattle.ts_core.specs.plans.Pieces.{Piece as PieceValue};
    ghost use Rattle.ts_check.specs.Certificates.{source_of};

    ghost Value = { PieceValue };

    ghost view = { λ p. record { source = source_of p.source; from = p.from; to = p.to } };
}

impl Piece {
    /// Returns a copy of the piece.
    pub fn clone(&self) -> Piece
        ensures { result ≡ self.now }
    {
        Piece {
            source: self.source.clone(),
            from: self.from,
            to: self.to,
        }
    }
}

/// A plan that isn't checked: pieces ordered by time. `check` decides whether they are valid.
/// Each piece has a spelling in the text of a certificate.
#[derive(Drop)]
pub struct Certificate<A: Allocator> {
    pieces: Vec<Piece, A>,
}

impl<A: Allocator> Model for Certificate<A> {
    ghost use Rattle.std.specs.Prelude.{List};
    ghost use Rattle.ts_core.specs.plans.Pieces.{Piece as PieceValue};
    ghost use Rattle.ts_check.specs.CertificateTexts.{EachHasSpelling};

    ghost Value = { List PieceValue };

    ghost view = { λ c. c.pieces.items };

    ghost invariant = { λ c. EachHasSpelling c.pieces.items };
}

impl<A: Allocator> Certificate<A> {
    ghost use Rattle.ts_check.specs.CertificateTexts.{EachHasSpelling};

    /// Creates a certificate from pieces.
    pub fn new(pieces: Vec<Piece, A>) -> Certificate<A>
        requires { EachHasSpelling pieces.items }
        ensures { result ≡ pieces.items }
    {
        Certificate { pieces }
    }

    /// Returns the pieces.
    pub fn pieces(&self) -> &[Piece]
        ensures value { result.now ≡ self.now }
        ensures spelled { EachHasSpelling self.now }
    {
        self.pieces.as_slice()
    }
}
