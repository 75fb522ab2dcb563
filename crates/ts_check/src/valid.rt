//! Finds the first error of a plan.
ghost use Rattle.std.specs.Prelude.{◌≡◌, ◌&&◌, pos, int_lt, int_le, ◌≤ℤ◌, Some};
ghost use Rattle.std.specs.List.{AllByRecursion};
ghost use Rattle.std.specs.Ordering.{int_eq};
ghost use Rattle.ts_core.specs.store.Marks.{index_of};
ghost use Rattle.ts_core.specs.plans.Faults.{rule_fault, piece_fault, gap_at, pieces_fault, first_fault};

use crate::certificate::{Piece, PieceSource};
use crate::coverage::{is_aligned_in, is_boundary, keeps_tags};
use crate::query_context::{MarkedRule, QueryContext};
use std::alloc::Allocator;
use ts_core::{Marks, PieceFault, Settings, index_of};
use ts_ql::Query;

/// Returns true if the rule's bucket at this time is still complete.
fn is_whole<A: Allocator>(marked: &MarkedRule<'_, A>, at: i64) -> bool
    requires { pos 1 ≤ℤ marked.now.rule.interval }
    ensures { result ≡ int_le marked.now.low (index_of marked.now.rule at) }
{
    marked.low <= index_of(marked.rule, i128::from(at))
}

/// Returns the first condition that a rule's cells fail in the range from `from` to `to`.
fn rule_fault<A: Allocator>(
    query: &Query<A>,
    marked: &MarkedRule<'_, A>,
    from: i64,
    to: i64,
) -> Option<PieceFault>
    requires { pos 1 ≤ℤ marked.now.rule.interval }
    ensures { result ≡ rule_fault query.now.query (Some marked.now) from to }
{
    let rule = marked.rule;
    if rule.measurement() != query.measurement() {
        return Some(PieceFault::OtherMeasurement);
    }
    if !is_boundary(rule, from) {
        return Some(PieceFault::OffBoundary);
    }
    if !is_boundary(rule, to) {
        return Some(PieceFault::OffBoundary);
    }
    if !is_whole(marked, from) {
        return Some(PieceFault::BelowLow);
    }
    if !is_aligned_in(rule, query, from, to) {
        return Some(PieceFault::Straddles);
    }
    if !keeps_tags(rule, query) {
        return Some(PieceFault::TagNotKept);
    }
    None
}

impl<'a, A: Allocator> QueryContext<'a, A> {
    /// Returns the first error of a piece by itself, whatever its neighbours are.
    pub(crate) fn piece_fault(&self, piece: &Piece) -> Option<PieceFault>
        requires { AllByRecursion (λ r. pos 1 ≤ℤ r.rule.interval) self.now.rules }
        ensures { result ≡ piece_fault self.now piece.now }
    {
        match &piece.source {
            PieceSource::Raw => {
                if piece.from < self.mark() {
                    Some(PieceFault::BelowMark)
                } else {
                    None
                }
            }
            PieceSource::Rollup(name) => match self.rule_named(name.as_str()) {
                None => Some(PieceFault::NoSuchRule),
                Some(marked) => rule_fault(self.query(), &marked, piece.from, piece.to),
            },
        }
    }
}

/// Returns true if a piece starts at `at`, isn't empty, and ends at `end` or earlier.
fn joins(piece: &Piece, at: i64, end: i64) -> bool
    ensures { result ≡ (int_eq piece.now.from at && (int_lt piece.now.from piece.now.to && int_le piece.now.to end)) }
{
    piece.from == at && piece.from < piece.to && piece.to <= end
}

/// Returns the index of the first piece that doesn't join the one before it. If the last one doesn't reach the end,
/// returns the number of pieces.
fn gap(from: i64, end: i64, pieces: &[Piece]) -> Option<usize>
    ensures { result ≡ gap_at 0 from end pieces.now }
{
    let mut at = from;
    for (number, piece) in pieces.iter().enumerate() {
        if !joins(piece, at, end) {
            return Some(number);
        }
        at = piece.to;
    }
    if at == end { None } else { Some(pieces.len()) }
}

/// Returns the first error of a piece by itself, with the piece's index.
fn first_of_pieces<A: Allocator>(
    query_context: &QueryContext<'_, A>,
    pieces: &[Piece],
) -> Option<(PieceFault, usize)>
    requires { AllByRecursion (λ r. pos 1 ≤ℤ r.rule.interval) query_context.now.rules }
    ensures { result ≡ pieces_fault query_context.now 0 pieces.now }
{
    for (number, piece) in pieces.iter().enumerate() {
        if let Some(fault) = query_context.piece_fault(piece) {
            return Some((fault, number));
        }
    }
    None
}

/// Returns the first error of a plan, with the index of its piece. Gaps anywhere take precedence over errors of single
/// pieces.
pub(crate) fn first_fault<A: Allocator>(
    settings: &Settings<A>,
    marks: &Marks<A>,
    query: &Query<A>,
    pieces: &[Piece],
) -> Option<(PieceFault, usize)>
    ensures { result ≡ first_fault settings.now marks.now query.now.query pieces.now }
{
    if let Some(number) = gap(query.from(), query.to(), pieces) {
        return Some((PieceFault::Gap, number));
    }
    first_of_pieces(&QueryContext::new(settings, marks, query), pieces)
}
