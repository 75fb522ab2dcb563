//! Reads the fields of an image from a source, in whatever pieces its bytes come.
ghost use Rattle.std.specs.Prelude.{◌≡◌, true, ◌≤◌, ◌<◌, ◌+◌, ◌^◌, [], length, IfOk, OnOk, OnErr, string_bytes};
ghost use Rattle.std.specs.Int.{w8, w32, w64, w128};
ghost use Rattle.ts_core.specs.io.ReadingAhead.{EndIsEnd, nothing_ahead, IsConsumed};
ghost use Rattle.ts_image.specs.Formats.{number, signed_number, text};
ghost use Rattle.ts_image.specs.FieldReading.{cursor_of, IsKnown, GivesEnd, CallsSource, FillsAhead, IsShaped, TakesByte, FillsBuffer, TakesChunk, FillsText, ReadsField};

use crate::field_fault::FieldFault;
use std::alloc::{AllocError, Allocator};
use std::io::Read;
use std::marker::Model;
use ts_core::{ReadAhead, ReadFault, Source};

/// A reader of fields that knows its offset from the start. Each call is passed the source.
#[derive(Drop)]
pub(crate) struct FieldReader<A: Allocator + Copy> {
    ahead: ReadAhead<A>,
    at: u64,
}

impl<A: Allocator + Copy> Model for FieldReader<A> {
    ghost use Rattle.std.specs.Prelude.{◌≤◌, ◌+◌, ◌*◌, ◌^◌, length};
    ghost use Rattle.ts_image.specs.FieldReading.{FieldsRead};

    ghost Value = { FieldsRead };

    ghost view = { λ r. record { ahead = r.ahead; at = r.at } };

    ghost invariant = { λ r. (r.at + length r.ahead.buffered ≤ r.ahead.reads * 65536)
        × (r.ahead.reads ≤ r.ahead.limit) × (r.ahead.limit ≤ 2 ^ 32) };
}

impl<A: Allocator + Copy> FieldReader<A> {
    /// Creates a reader with a buffer of 64 KiB, and a limit on the number of reads.
    pub(crate) fn new(alloc: A, limit: u64) -> Result<FieldReader<A>, AllocError>
        requires { limit ≤ 2 ^ 32 }
        ensures { IfOk result (λ r. r ≡ record { ahead = nothing_ahead limit; at = 0 }) }
    {
        Ok(FieldReader {
            ahead: ReadAhead::new(alloc, limit)?,
            at: 0,
        })
    }

    /// Consumes the first buffered bytes.
    fn consume(&mut self, count: usize)
        requires { count ≤ length self.old.ahead.buffered }
        ensures used { self.new.at ≡ self.old.at + count }
        ensures ahead { IsConsumed self.old.ahead count self.new.ahead }
    {
        self.ahead.consume(count);
        self.at += count as u64;
    }

    /// Refills the empty buffer. Returns false at the end of the input.
    fn fill<R: Read>(&mut self, source: &mut Source<R>) -> Result<bool, FieldFault>
        requires empty { self.old.ahead.buffered ≡ [] }
        requires end { EndIsEnd self.old.ahead source.old }
        ensures filled { IfOk result (λ more. FillsAhead self.old source.old more self.new source.new) }
        ensures shaped { IsShaped result }
        ensures calls { CallsSource self.old.ahead source.old result self.new.ahead source.new }
    {
        if self.ahead.has_ended() {
            return Ok(false);
        }
        match self.ahead.fill(source) {
            Ok(more) => Ok(more),
            Err(ReadFault::Device) => Err(FieldFault::Device),
            Err(ReadFault::TooManyReads) => Err(FieldFault::TooManyReads),
        }
    }

    /// Returns the next byte, or `None` at the end of the input.
    fn byte<R: Read>(&mut self, source: &mut Source<R>) -> Result<Option<u8>, FieldFault>
        requires { EndIsEnd self.old.ahead source.old }
        ensures byte { IfOk result (λ byte. TakesByte self.old source.old byte self.new source.new) }
        ensures shaped { IsShaped result }
        ensures calls { CallsSource self.old.ahead source.old result self.new.ahead source.new }
    {
        if self.ahead.buffered().is_empty() && !self.fill(source)? {
            return Ok(None);
        }
        let byte = self.ahead.buffered()[0];
        self.consume(1);
        Ok(Some(byte))
    }

    /// Does the work of `take` if not all bytes are buffered.
    #[cold]
    fn read_bytewise<R: Read>(
        &mut self,
        source: &mut Source<R>,
        buffer: &mut [u8],
    ) -> Result<(), FieldFault>
        requires { EndIsEnd self.old.ahead source.old }
        ensures filled { FillsBuffer self.old source.old result buffer.new self.new source.new }
        ensures len { length buffer.new ≡ length buffer.old }
        ensures calls { CallsSource self.old.ahead source.old result self.new.ahead source.new }
    {
        let at = self.at;
        for cursor in buffer.iter_mut() {
            match self.byte(source)? {
                Some(byte) => *cursor = byte,
                None => return Err(FieldFault::Misshapen(at)),
            }
        }
        Ok(())
    }

    /// Fills `buffer` with the next bytes.
    pub(crate) fn read_exact<R: Read>(
        &mut self,
        source: &mut Source<R>,
        buffer: &mut [u8],
    ) -> Result<(), FieldFault>
        requires { EndIsEnd self.old.ahead source.old }
        ensures filled { FillsBuffer self.old source.old result buffer.new self.new source.new }
        ensures len { length buffer.new ≡ length buffer.old }
        ensures calls { CallsSource self.old.ahead source.old result self.new.ahead source.new }
    {
        let count = buffer.len();
        let rest = self.ahead.buffered();
        if rest.len() < count {
            return self.read_bytewise(source, buffer);
        }
        buffer.copy_from_slice(&rest[..count]);
        self.consume(count);
        Ok(())
    }

    /// Returns an error at the next byte unless the input ends here.
    pub(crate) fn end<R: Read>(&mut self, source: &mut Source<R>) -> Result<(), FieldFault>
        requires { EndIsEnd self.old.ahead source.old }
        ensures value { IsKnown self.old source.old → GivesEnd result (cursor_of self.old source.old) }
        ensures ended { IfOk result (λ u. self.new.ahead.ended ≡ true) }
        ensures calls { CallsSource self.old.ahead source.old result self.new.ahead source.new }
    {
        let at = self.at;
        if !self.ahead.buffered().is_empty() {
            return Err(FieldFault::Misshapen(at));
        }
        if self.fill(source)? {
            return Err(FieldFault::Misshapen(at));
        }
        Ok(())
    }

    /// Reads an unsigned number of one byte.
    pub(crate) fn u8<R: Read>(&mut self, source: &mut Source<R>) -> Result<u8, FieldFault>
        requires { EndIsEnd self.old.ahead source.old }
        ensures { ReadsField (number w8) (λ n. n) self.old source.old result self.new source.new }
    {
        let mut bytes = [0; 1];
        self.read_exact(source, &mut bytes)?;
        Ok(u8::from_be_bytes(bytes))
    }

    /// Reads an unsigned number of four bytes.
    pub(crate) fn u32<R: Read>(&mut self, source: &mut Source<R>) -> Result<u32, FieldFault>
        requires { EndIsEnd self.old.ahead source.old }
        ensures { ReadsField (number w32) (λ n. n) self.old source.old result self.new source.new }
    {
        let mut bytes = [0; 4];
        self.read_exact(source, &mut bytes)?;
        Ok(u32::from_be_bytes(bytes))
    }

    /// Reads an unsigned number of eight bytes.
    pub(crate) fn u64<R: Read>(&mut self, source: &mut Source<R>) -> Result<u64, FieldFault>
        requires { EndIsEnd self.old.ahead source.old }
        ensures { ReadsField (number w64) (λ n. n) self.old source.old result self.new source.new }
    {
        let mut bytes = [0; 8];
        self.read_exact(source, &mut bytes)?;
        Ok(u64::from_be_bytes(bytes))
    }

    /// Reads a signed number of eight bytes.
    pub(crate) fn i64<R: Read>(&mut self, source: &mut Source<R>) -> Result<i64, FieldFault>
        requires { EndIsEnd self.old.ahead source.old }
        ensures { ReadsField (signed_number w64) (λ n. n) self.old source.old result self.new source.new }
    {
        let mut bytes = [0; 8];
        self.read_exact(source, &mut bytes)?;
        Ok(i64::from_be_bytes(bytes))
    }

    /// Reads a signed number of sixteen bytes.
    pub(crate) fn i128<R: Read>(&mut self, source: &mut Source<R>) -> Result<i128, FieldFault>
        requires { EndIsEnd self.old.ahead source.old }
        ensures { ReadsField (signed_number w128) (λ n. n) self.old source.old result self.new source.new }
    {
        let mut bytes = [0; 16];
        self.read_exact(source, &mut bytes)?;
        Ok(i128::from_be_bytes(bytes))
    }

    /// Appends buffered bytes to `bytes`, at most `most`.
    fn read_chunk(&mut self, bytes: &mut Vec<u8, A>, most: u64) -> Result<(), AllocError>
        requires some { 0 < length self.old.ahead.buffered }
        requires most { 0 < most }
        ensures ok { OnOk result (TakesChunk self.old bytes.old.items most self.new bytes.new.items) }
        ensures err { OnErr result (self.new ≡ self.old) }
    {
        let rest = self.ahead.buffered();
        let count = if (rest.len() as u64) < most {
            rest.len()
        } else {
            most as usize
        };
        bytes.extend_from_slice(&rest[..count])?;
        self.consume(count);
        Ok(())
    }

    /// Appends the next `length` bytes, or returns false if the input ends before. Allocates for bytes that were read,
    /// not by `length`.
    fn read_string<R: Read>(
        &mut self,
        source: &mut Source<R>,
        bytes: &mut Vec<u8, A>,
        length: u64,
    ) -> Result<bool, FieldFault>
        requires none { bytes.old.items ≡ [] }
        requires end { EndIsEnd self.old.ahead source.old }
        ensures text { FillsText self.old source.old length result bytes.new.items self.new source.new }
        ensures shaped { IsShaped result }
        ensures calls { CallsSource self.old.ahead source.old result self.new.ahead source.new }
    {
        // For the proof: the buffer is as its type says.
        let _ = &self.ahead;
        while (bytes.len() as u64) < length {
            if self.ahead.buffered().is_empty() && !self.fill(source)? {
                return Ok(false);
            }
            let left = length - bytes.len() as u64;
            self.read_chunk(bytes, left)?;
        }
        Ok(true)
    }

    /// Reads a text: its length and its UTF-8 bytes.
    pub(crate) fn text<R: Read>(
        &mut self,
        alloc: A,
        source: &mut Source<R>,
    ) -> Result<String<A>, FieldFault>
        requires { EndIsEnd self.old.ahead source.old }
        ensures { ReadsField text string_bytes self.old source.old result self.new source.new }
    {
        let at = self.at;
        let length = self.u64(source)?;
        let mut bytes = Vec::new(alloc);
        if !self.read_string(source, &mut bytes, length)? {
            return Err(FieldFault::Misshapen(at));
        }
        match String::from_utf8(bytes) {
            Ok(text) => Ok(text),
            Err(_) => Err(FieldFault::Misshapen(at)),
        }
    }
}
