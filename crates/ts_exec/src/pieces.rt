//! Adds the pieces of a plan to the groups.
ghost use Rattle.std.specs.Prelude.{◌≡◌, OnOk, IfOk};
ghost use Rattle.ts_exec.specs.JoinedPieces.{joined_pieces, has_small_parts, have_small_parts};
ghost use Rattle.ts_exec.specs.GroupTables.{with_source, with_pieces};

use crate::aggregate_parts::AggregateParts;
use crate::cell_piece::add_cells;
use crate::groups::Groups;
use crate::joined::JoinedPieces;
use crate::raw_piece::add_raw;
use crate::scan::Scan;
use std::alloc::{AllocError, Allocator};
use ts_check::{Piece, PieceSource};
use ts_store::View;

/// Adds the data of a piece. Keeps these parts of raw points. Returns true if all its cells are small.
fn add_piece<'a, A: Allocator + Copy + 'a, V: View<A> + 'a>(
    groups: &mut Groups<'a, A>,
    scan: &mut Scan<'a, '_, A>,
    parts: AggregateParts,
    view: &'a V,
    piece: &Piece,
) -> Result<bool, AllocError>
    ensures value { OnOk result (groups.new
        ≡ with_source parts (V.seen view.now) scan.old piece.now.source piece.now.from piece.now.to groups.old) }
    ensures small { IfOk result
        (λ b. b ≡ has_small_parts (V.seen view.now) piece.now.source piece.now.from piece.now.to) }
    ensures same { scan.new ≡ scan.old }
{
    match &piece.source {
        PieceSource::Raw => {
            add_raw(groups, scan, parts, view, piece.from, piece.to)?;
            Ok(true)
        }
        PieceSource::Rollup(name) => {
            let settings = view.settings();
            match settings.rule_named(name.as_str()) {
                Some(number) => {
                    let rule = &settings.rules()[number];
                    add_cells(groups, scan, view, rule, number, piece.from, piece.to)
                }
                None => Ok(true),
            }
        }
    }
}

/// Adds the data of all pieces, one after the other. Keeps these parts of raw points.
pub(crate) fn add_pieces<'a, A: Allocator + Copy + 'a, V: View<A> + 'a>(
    groups: &mut Groups<'a, A>,
    scan: &mut Scan<'a, '_, A>,
    parts: AggregateParts,
    view: &'a V,
    pieces: &[Piece],
) -> Result<(), AllocError>
    ensures { OnOk result (groups.new ≡ with_pieces parts (V.seen view.now) scan.old pieces.now groups.old) }
{
    for piece in pieces {
        add_piece(groups, scan, parts, view, piece)?;
    }
    Ok(())
}

/// Adds the data of all pieces as `add_pieces` does, but joins adjacent pieces of one source. Returns true if all their
/// cells are small.
pub(crate) fn add_joined_pieces<'a, A: Allocator + Copy + 'a, V: View<A> + 'a>(
    groups: &mut Groups<'a, A>,
    scan: &mut Scan<'a, '_, A>,
    parts: AggregateParts,
    view: &'a V,
    pieces: &[Piece],
) -> Result<bool, AllocError>
    ensures value { OnOk result
        (groups.new ≡ with_pieces parts (V.seen view.now) scan.old (joined_pieces pieces.now) groups.old) }
    ensures small { IfOk result (λ b. b ≡ have_small_parts (V.seen view.now) (joined_pieces pieces.now)) }
{
    let mut small = true;
    for piece in JoinedPieces::new(pieces) {
        let of_piece = add_piece(groups, scan, parts, view, &piece)?;
        small = small && of_piece;
    }
    Ok(small)
}
