//! The retention run of a store, with the columns that it still has to move.
ghost use Rattle.std.specs.Prelude.{◌≡◌, ◌↔◌, IsTrue, ◌≤◌, ◌<◌, true, false, get_or, is_some, Some, None, MatchOption};
ghost use Rattle.ts_store.specs.retain.OpenRuns.{ArePassed, IsToMove, TakesFirst, run_of, run_over};

use std::alloc::Allocator;
use std::marker::Model;

/// Returns the index of the first column from `next` on, and before `end`, that isn't passed.
fn first_waiting(passed: &[bool], next: usize, end: usize) -> Option<usize>
    ensures { MatchOption result (ArePassed passed.now next end)
        (λ n. (next ≤ n) × (n < end) × (get_or passed.now n false ≡ false) × ArePassed passed.now next n) }
{
    for column in next..end {
        if !passed.get(column).copied().unwrap_or(false) {
            return Some(column);
        }
    }
    None
}

/// The retention run of a store. If it is open: the column that it moves next, the number of columns at its start, and
/// a flag per column. The flag is true if the column counts as moved already. Columns created since then count as moved
/// too.
#[derive(Drop)]
pub(crate) struct Run<A: Allocator> {
    running: bool,
    next: usize,
    end: usize,
    passed: Vec<bool, A>,
}

impl<A: Allocator> Model for Run<A> {
    ghost use Rattle.std.specs.Prelude.{Option};
    ghost use Rattle.std.specs.Coded.{coded_option};
    ghost use Rattle.ts_store.specs.retain.OpenRuns.{Run as RunValue, coded_run, run_of};

    ghost Value = { Option RunValue };

    ghost coded = { coded_option coded_run };

    ghost view = { λ r. run_of r.running r.next r.end r.passed.items };
}

impl<A: Allocator> Run<A> {
    /// Creates a run that isn't open.
    pub(crate) fn none(alloc: A) -> Run<A>
        ensures { result ≡ None }
    {
        Run {
            running: false,
            next: 0,
            end: 0,
            passed: Vec::new(alloc),
        }
    }

    /// Creates a run over this many columns, open or not; those with a true flag count as moved.
    pub(crate) fn over(running: bool, columns: usize, passed: Vec<bool, A>) -> Run<A>
        ensures { result ≡ run_of running 0 columns passed.items }
    {
        Run {
            running,
            next: 0,
            end: columns,
            passed,
        }
    }

    /// Returns true if the run is open.
    pub(crate) fn is_open(&self) -> bool
        ensures { result ≡ is_some self.now }
    {
        self.running
    }

    /// Opens the run over this many columns, each of which waits.
    pub(crate) fn begin(&mut self, columns: usize)
        ensures { self.new ≡ Some (run_over columns) }
    {
        self.running = true;
        self.next = 0;
        self.end = columns;
        self.passed.clear();
    }

    /// Removes the first waiting column from the open run, and returns its index. Returns `None` if no column waits.
    pub(crate) fn take_first(&mut self) -> Option<usize>
        requires { is_some self.old ≡ true }
        ensures { TakesFirst self.old self.new result }
    {
        match first_waiting(self.passed.as_slice(), self.next, self.end) {
            Some(column) => {
                self.next = column + 1;
                Some(column)
            }
            None => {
                self.next = self.end;
                None
            }
        }
    }

    /// Returns true if the run is open and hasn't moved the column yet.
    pub(crate) fn waits(&self, column: usize) -> bool
        ensures { IsTrue result ↔ IsToMove self.now column }
    {
        if !self.running || column < self.next || self.end <= column {
            return false;
        }
        !self.passed.get(column).copied().unwrap_or(false)
    }

    /// Ends the run.
    pub(crate) fn end(&mut self)
        ensures { self.new ≡ None }
    {
        self.running = false;
    }
}
