//! Reads a script line by line, up to a limit of the line's length.
ghost use Rattle.std.specs.Prelude.{◌≡◌, ◌≤◌, [], length, IfOk, OnErr, true, false};
ghost use Rattle.std.specs.Bool.{OnFalse, OnTrue};
ghost use Rattle.ts_core.specs.io.ReadingAhead.{nothing_ahead};
ghost use Rattle.ts_script.specs.ScriptLines.{script_line_limit};
ghost use Rattle.ts_script.specs.LineReading.{LineIs, TakesBuffered, IsLonger, CallsReader, EndIsOver, IsReadOn, IsNext, IsCut, UsesUp, has_lf, next_after_line, result_at_end};

use crate::chunk::{LINE_LIMIT, copy_borrowed, extend_line, line_end};
use std::alloc::{AllocError, Global};
use std::io::Read;
use std::marker::Model;
use ts_core::{ReadAhead, ReadFault, Source};

/// Result of reading the next line.
#[derive(Clone, Copy, Drop)]
pub enum Next {
    /// A line, available from `line`.
    Line,
    /// A line over the limit, which was skipped.
    TooLong,
    /// End of input.
    End,
}

/// Reads lines from a source. A line that lies whole in the read buffer is returned as a slice of it: `borrowed` has
/// its two offsets. Only a line that crosses a read is copied to `line`. `end` caches the offset of the first LF among
/// the buffered bytes, so that it is searched only once.
#[derive(Drop)]
pub struct LineReader {
    ahead: ReadAhead<Global>,
    end: usize,
    borrowed: Option<(usize, usize)>,
    line: Vec<u8>,
    long: bool,
}

impl Model for LineReader {
    ghost use Rattle.std.specs.Prelude.{◌≡◌, ◌≤◌, length, IfSome, vec_len, vec_capacity};
    ghost use Rattle.ts_script.specs.ScriptLines.{script_line_limit};
    ghost use Rattle.ts_script.specs.LineReading.{IsLineEnd};
    ghost use Rattle.ts_script.specs.ReaderState.{ReaderState, line_so_far};

    ghost Value = { ReaderState };

    ghost view = { λ r. record { ahead = r.ahead; line = line_so_far r.ahead.used r.borrowed r.line.items; long = r.long } };

    ghost invariant = { λ r. (r.ahead.reads ≤ r.ahead.limit) × (script_line_limit ≤ vec_capacity r.line)
        × (vec_len r.line ≤ script_line_limit) × IsLineEnd r.ahead.buffered r.end
        × IfSome r.borrowed (λ borrowed. (borrowed.0 ≤ borrowed.1) × (borrowed.1 ≤ length r.ahead.used))
        × (length (line_so_far r.ahead.used r.borrowed r.line.items) ≤ script_line_limit) };
}

impl LineReader {
    /// Allocates all buffers of a reader that reads at most `reads` times.
    pub fn new(alloc: Global, reads: u64) -> Result<LineReader, AllocError>
        ensures { IfOk result (λ r. r.ahead ≡ nothing_ahead reads) }
    {
        Ok(LineReader {
            ahead: ReadAhead::new(alloc, reads)?,
            end: 0,
            borrowed: None,
            line: Vec::with_capacity(alloc, LINE_LIMIT)?,
            long: false,
        })
    }

    /// Returns the line that `next` read.
    pub fn line(&self) -> &[u8]
        ensures line { result.now ≡ self.now.line }
        ensures short { length result.now ≤ script_line_limit }
    {
        match self.borrowed {
            Some((start, end)) => &self.ahead.used()[start..end],
            None => self.line.as_slice(),
        }
    }

    /// Returns true if the next line, including its LF, is in the read buffer.
    pub fn holds_line(&self) -> bool
        ensures { result ≡ has_lf self.now.ahead.buffered }
    {
        self.end < self.ahead.buffered().len()
    }

    /// Clears the line.
    fn start_line(&mut self)
        ensures line { LineIs [] self.new.line self.new.long }
        ensures ahead { self.new.ahead ≡ self.old.ahead }
    {
        self.borrowed = None;
        self.line.clear();
        self.long = false;
    }

    /// Takes the next line as a slice of the read buffer, if it is there whole; returns false if it isn't.
    fn borrow_line(&mut self) -> bool
        requires { LineIs [] self.old.line self.old.long }
        ensures whole { result ≡ has_lf self.old.ahead.buffered }
        ensures taken { OnTrue result (TakesBuffered self.old true self.new) }
        ensures line { OnTrue result (IsLonger self.old self.new) }
        ensures left { OnFalse result (self.new ≡ self.old) }
    {
        let size = self.end;
        if size >= self.ahead.buffered().len() {
            return false;
        }
        let start = self.ahead.used().len();
        self.borrowed = Some((start, start + size));
        self.ahead.consume(size + 1);
        self.end = line_end(self.ahead.buffered());
        true
    }

    /// Appends buffered bytes to the line, up to an LF; returns true if there was one.
    fn consume_chunk(&mut self) -> bool
        ensures taken { TakesBuffered self.old result self.new }
        ensures line { IsLonger self.old self.new }
    {
        copy_borrowed(&mut self.line, self.borrowed.take(), self.ahead.used());
        let rest = self.ahead.buffered();
        let size = self.end;
        let found = size < rest.len();
        self.long = extend_line(&mut self.line, self.long, &rest[..size]);
        let used = if found { size + 1 } else { size };
        self.ahead.consume(used);
        self.end = line_end(self.ahead.buffered());
        found
    }

    /// Reads once; returns false at the end of input.
    fn read_on<R: Read>(&mut self, source: &mut Source<R>) -> Result<bool, ReadFault>
        requires empty { self.old.ahead.buffered ≡ [] }
        requires going { self.old.ahead.ended ≡ false }
        ensures read { IsReadOn self.old source.old result self.new source.new }
        ensures source_calls { CallsReader self.old.ahead source.old result self.new.ahead source.new }
    {
        copy_borrowed(&mut self.line, self.borrowed.take(), self.ahead.used());
        let more = self.ahead.fill(source);
        self.end = line_end(self.ahead.buffered());
        more
    }

    /// Reads the next line chunk by chunk.
    fn gather<R: Read>(&mut self, source: &mut Source<R>) -> Result<Next, ReadFault>
        requires none { LineIs [] self.old.line self.old.long }
        requires going { self.old.ahead.ended ≡ false }
        requires part { has_lf self.old.ahead.buffered ≡ false }
        ensures next { IfOk result (λ next. IsNext self.old source.old next self.new source.new) }
        ensures cut { OnErr result (IsCut self.old source.old self.new source.new) }
        ensures long { IfOk result (λ next. next ≡ Next.TooLong → self.new.long ≡ true) }
        ensures goes_on { IfOk result (λ next. UsesUp self.old.ahead next self.new.ahead) }
        ensures source_calls { CallsReader self.old.ahead source.old result self.new.ahead source.new }
    {
        loop {
            if self.consume_chunk() {
                return Ok(self.found());
            }
            if !self.read_on(source)? {
                return Ok(self.last());
            }
        }
    }

    /// Reads the next line.
    pub fn next<R: Read>(&mut self, source: &mut Source<R>) -> Result<Next, ReadFault>
        requires { EndIsOver self.old.ahead source.old }
        ensures next { IfOk result (λ next. IsNext self.old source.old next self.new source.new) }
        ensures cut { OnErr result (IsCut self.old source.old self.new source.new) }
        ensures long { IfOk result (λ next. next ≡ Next.TooLong → self.new.long ≡ true) }
        ensures goes_on { IfOk result (λ next. UsesUp self.old.ahead next self.new.ahead) }
        ensures source_calls { CallsReader self.old.ahead source.old result self.new.ahead source.new }
    {
        if self.ahead.has_ended() {
            return Ok(Next::End);
        }
        self.start_line();
        if self.borrow_line() {
            return Ok(self.found());
        }
        self.gather(source)
    }

    /// Returns the result for a line that an LF ended.
    fn found(&self) -> Next
        ensures { result ≡ next_after_line self.now.long }
    {
        if self.long { Next::TooLong } else { Next::Line }
    }

    /// Returns the result for a line that the end of input ended.
    fn last(&self) -> Next
        ensures { result ≡ result_at_end self.now.line self.now.long }
    {
        if !self.long && self.line().is_empty() {
            Next::End
        } else {
            self.found()
        }
    }
}
