//! Checks plans. Only `check` creates a `Checked`, whose invariant is that its pieces are valid.
ghost use Rattle.std.specs.Prelude.{◌≡◌, length, IfOk};
ghost use Rattle.ts_check.specs.Checks.{IsCheckOf};

use crate::certificate::{Certificate, Piece};
use crate::fault::{CheckError, CheckFault};
use crate::valid::first_fault;
use std::alloc::{AllocError, Allocator};
use std::marker::Model;
use ts_core::{Marks, Settings};
use ts_ql::Query;

/// A query with a checked plan: under these settings and marks, its pieces cover all points that the query asks for.
/// It owns all four, so the store may change after the check; the plan is then stale.
#[derive(Drop)]
pub struct Checked<A: Allocator> {
    settings: Settings<A>,
    marks: Marks<A>,
    query: Query<A>,
    pieces: Vec<Piece, A>,
}

impl<A: Allocator> Model for Checked<A> {
    ghost use Rattle.ts_check.specs.Checks.{Plan, IsValidPlan};

    ghost Value = { Plan };

    ghost view = { λ c. record { settings = c.settings; marks = c.marks; select = c.query; pieces = c.pieces.items } };

    ghost invariant = { λ c. IsValidPlan
        (record { settings = c.settings; marks = c.marks; select = c.query; pieces = c.pieces.items }) };
}

impl<A: Allocator> Checked<A> {
    ghost use Rattle.ts_check.specs.Checks.{IsValidPlan};

    /// Returns the settings that the plan is valid under.
    pub fn settings(&self) -> &Settings<A>
        ensures { result.now ≡ self.now.settings }
    {
        &self.settings
    }

    /// Returns the marks that the plan is valid under.
    pub fn marks(&self) -> &Marks<A>
        ensures { result.now ≡ self.now.marks }
    {
        &self.marks
    }

    /// Returns the query.
    pub fn query(&self) -> &Query<A>
        ensures { result.now ≡ self.now.select }
    {
        &self.query
    }

    /// Returns the pieces, which are a valid plan of the query.
    pub fn pieces(&self) -> &[Piece]
        ensures value { result.now ≡ self.now.pieces }
        ensures valid { IsValidPlan self.now }
    {
        self.pieces.as_slice()
    }
}

/// Copies pieces.
fn try_clone<A: Allocator>(alloc: A, pieces: &[Piece]) -> Result<Vec<Piece, A>, AllocError>
    ensures { IfOk result (λ v. v.items ≡ pieces.now) }
{
    let mut all = Vec::new(alloc);
    for piece in pieces {
        all.push(piece.clone())?;
    }
    Ok(all)
}

/// Checks that the pieces of a certificate cover all points that a query asks for, under these settings and marks.
/// Returns a plan with copies of all four, or the first error with the index of its piece. Errors other than
/// `OutOfMemory` are found before anything is allocated.
pub fn check<A: Allocator + Copy>(
    alloc: A,
    settings: &Settings<A>,
    marks: &Marks<A>,
    query: &Query<A>,
    certificate: &Certificate<A>,
) -> Result<Checked<A>, CheckError>
    requires { length marks.now.lows ≡ length settings.now.rules }
    ensures { IsCheckOf
        (record { settings = settings.now; marks = marks.now; select = query.now; pieces = certificate.now }) result }
{
    if let Some((kind, piece)) = first_fault(settings, marks, query, certificate.pieces()) {
        return Err(CheckError::Fault(CheckFault { kind, piece }));
    }
    Ok(Checked {
        settings: settings.try_clone(alloc)?,
        marks: marks.try_clone(alloc)?,
        query: query.try_clone(alloc)?,
        pieces: try_clone(alloc, certificate.pieces())?,
    })
}
