//! Walks over the steps that reach the end of the range and merges neighbours.
ghost use Rattle.std.specs.Prelude.{◌≡◌, List, [], ◌++◌, ◌∷◌, IfOk};
ghost use Rattle.std.specs.List.{AllByRecursion};
ghost use Rattle.ts_core.specs.plans.Pieces.{Piece as PieceValue};
ghost use Rattle.ts_core.specs.plans.Plans.{joined, merged_onto};
ghost use Rattle.ts_plan.specs.Steps.{IsPlannable, IsStep, bucket_piece, walked};
ghost use Rattle.ts_plan.specs.Joins.{pending_piece, pending_pieces, joins, joined_after, IsPendingPiece, ArePending};

use crate::instant::Instant;
use crate::steps::Step;
use std::alloc::{AllocError, Allocator};
use ts_check::{Piece, PieceSource, QueryContext, RuleName, is_aligned, is_in_one_bucket};

/// Pending piece, which the next bucket may extend.
#[derive(Clone, Copy)]
pub(crate) struct PendingPiece {
    /// Index of the rule.
    rule: usize,
    /// True if each bucket of the rule is within a bucket of the query.
    aligned: bool,
    from: Instant,
    to: Instant,
}

impl PendingPiece {
    /// Creates a pending piece from a single bucket.
    fn of_step<A: Allocator>(context: &QueryContext<'_, A>, step: &Step) -> PendingPiece
        requires plannable { IsPlannable context.now }
        requires step { IsStep context.now step.now }
        ensures piece { pending_piece context.now result ≡ bucket_piece context.now step.now }
        ensures pending { IsPendingPiece context.now result }
    {
        let marked = context.rule_at(step.rule).unwrap();
        PendingPiece {
            rule: step.rule,
            aligned: is_aligned(marked.rule, context.query()),
            from: step.from,
            to: step.to,
        }
    }

    fn piece<A: Allocator>(&self, context: &QueryContext<'_, A>) -> Piece
        requires { IsPendingPiece context.now self.now }
        ensures { result ≡ pending_piece context.now self.now }
    {
        let marked = context.rule_at(self.rule).unwrap();
        Piece {
            source: PieceSource::Rollup(RuleName::new(marked.rule.name()).unwrap()),
            from: self.from.nanos(),
            to: self.to.nanos(),
        }
    }

    /// Returns true if the bucket of a step can extend the piece: both are of one rule, and the merged piece is valid.
    fn joins<A: Allocator>(&self, context: &QueryContext<'_, A>, step: &Step) -> bool
        requires plannable { IsPlannable context.now }
        requires pending { IsPendingPiece context.now self.now }
        requires step { IsStep context.now step.now }
        ensures { result ≡ joins context.now (pending_piece context.now self.now) (bucket_piece context.now step.now) }
    {
        self.rule == step.rule
            && (self.aligned
                || is_in_one_bucket(context.query(), self.from.nanos(), step.to.nanos()))
    }
}

/// Extends the pending piece by the bucket of a step, or appends the pending piece to `pieces` and starts a new one.
/// Returns the piece that is now pending.
fn follow<A: Allocator>(
    context: &QueryContext<'_, A>,
    pieces: &mut Vec<Piece, A>,
    pending: Option<PendingPiece>,
    step: &Step,
) -> Result<PendingPiece, AllocError>
    requires plannable { IsPlannable context.now }
    requires pending { ArePending context.now pending }
    requires step { IsStep context.now step.now }
    ensures pending { IfOk result (IsPendingPiece context.now) }
    ensures pieces { IfOk result (λ h. (bs : List PieceValue)
        → pieces.new.items ++ merged_onto context.now (pending_piece context.now h) bs
        ≡ pieces.old.items ++ joined_after context.now pending (bucket_piece context.now step.now ∷ bs)) }
{
    match pending {
        None => Ok(PendingPiece::of_step(context, step)),
        Some(pending) => {
            if pending.joins(context, step) {
                Ok(PendingPiece {
                    to: step.to,
                    ..pending
                })
            } else {
                pieces.push(pending.piece(context))?;
                Ok(PendingPiece::of_step(context, step))
            }
        }
    }
}

/// Appends the pending piece, if there is one.
fn push_pending<A: Allocator>(
    context: &QueryContext<'_, A>,
    pieces: &mut Vec<Piece, A>,
    pending: Option<PendingPiece>,
) -> Result<(), AllocError>
    requires { ArePending context.now pending }
    ensures { IfOk result (λ _. pieces.new.items ≡ pieces.old.items ++ pending_pieces context.now pending) }
{
    if let Some(pending) = pending {
        pieces.push(pending.piece(context))?;
    }
    Ok(())
}

/// Appends the pending piece and, if the walk ended before the end of the range, a piece of raw points.
fn end_walk<A: Allocator>(
    context: &QueryContext<'_, A>,
    pieces: &mut Vec<Piece, A>,
    pending: Option<PendingPiece>,
    at: Instant,
) -> Result<(), AllocError>
    requires { ArePending context.now pending }
    ensures { IfOk result
        (λ _. pieces.new.items ≡ pieces.old.items ++ joined_after context.now pending (walked context.now at [])) }
{
    push_pending(context, pieces, pending)?;
    let end = Instant::new(context.end());
    if at == end {
        return Ok(());
    }
    pieces.push(Piece {
        source: PieceSource::Raw,
        from: at.nanos(),
        to: end.nanos(),
    })?;
    Ok(())
}

/// Walks from the start of the range to its end or the raw mark; returns the pieces, with neighbours merged. Expects
/// only steps from which the end is reachable.
pub(crate) fn walk<A: Allocator + Copy>(
    alloc: A,
    context: &QueryContext<'_, A>,
    steps: &[Step],
) -> Result<Vec<Piece, A>, AllocError>
    requires plannable { IsPlannable context.now }
    requires steps { AllByRecursion (IsStep context.now) steps.now }
    ensures { IfOk result
        (λ pieces. pieces.items ≡ joined context.now (walked context.now context.now.query.from steps.now)) }
{
    let mut pieces = Vec::new(alloc);
    let mut pending = None;
    let mut at = Instant::new(context.start());
    for step in steps {
        if step.from == at {
            pending = Some(follow(context, &mut pieces, pending, step)?);
            at = step.to;
        }
    }
    end_walk(context, &mut pieces, pending, at)?;
    Ok(pieces)
}
