//! Messages of faults: `fault`, the number, and a detail.
ghost use Rattle.std.specs.Prelude.{◌≡◌, ◌<◌, ◌^◌};
ghost use Rattle.ts_core.specs.text.FaultTexts.{fault_text, parts_joined, IsAppended};

use crate::text::FaultCode;
use itoa::Buffer;
use std::alloc::{AllocError, Allocator};

/// Detail that follows a fault's number.
#[derive(Clone, Copy, Debug, PartialEq, Eq)]
pub enum FaultDetail<'a> {
    /// No detail.
    Alone,
    /// Byte offset in a text or a file.
    At(usize),
    /// Byte offset in a text, and the token there.
    AtToken(usize, &'a str),
    /// Index of a rule in the settings.
    OfRule(usize),
    /// Index of a piece in a plan.
    OfPiece(usize),
    /// Raw mark, in nanoseconds of the Unix epoch.
    Mark(i64),
}

impl FaultDetail<'static> {
    /// Creates the detail of a byte offset.
    pub fn at(offset: usize) -> FaultDetail<'static>
        ensures value { result ≡ FaultDetail.At offset }
        ensures fits { offset < 2 ^ 64 }
    {
        FaultDetail::At(offset)
    }

    /// Creates the detail of a piece's index.
    pub fn of_piece(index: usize) -> FaultDetail<'static>
        ensures value { result ≡ FaultDetail.OfPiece index }
        ensures fits { index < 2 ^ 64 }
    {
        FaultDetail::OfPiece(index)
    }
}

/// Appends all parts to `text`. When out of memory, `text` may end in some of them. Does not allocate if `text` has the
/// capacity.
pub fn push_all<A: Allocator>(text: &mut String<A>, parts: &[&str]) -> Result<(), AllocError>
    ensures { IsAppended (parts_joined parts.now) text.old text.new result }
{
    match parts.split_first() {
        None => Ok(()),
        Some((first, others)) => {
            text.push_str(first)?;
            push_all(text, others)
        }
    }
}

impl FaultCode {
    /// Appends the message to `text`. When out of memory, `text` may end in part of the message. Does not allocate if
    /// `text` has the capacity.
    pub fn text_to<A: Allocator>(
        self,
        detail: FaultDetail<'_>,
        text: &mut String<A>,
    ) -> Result<(), AllocError>
        ensures { IsAppended (fault_text self detail.entry) text.old text.new result }
    {
        let mut number = Buffer::new();
        let mut index = Buffer::new();
        let number = number.format(self.number());
        match detail {
            FaultDetail::Alone => push_all(text, &["fault ", number]),
            FaultDetail::At(offset) => push_all(
                text,
                &["fault ", number, " at ", index.format(offset)],
            ),
            FaultDetail::AtToken(offset, token) => push_all(
                text,
                &["fault ", number, " at ", index.format(offset), " ", token],
            ),
            FaultDetail::OfRule(rule) => push_all(
                text,
                &["fault ", number, " rule ", index.format(rule)],
            ),
            FaultDetail::OfPiece(piece) => push_all(
                text,
                &["fault ", number, " piece ", index.format(piece)],
            ),
            FaultDetail::Mark(mark) => push_all(
                text,
                &["fault ", number, " mark ", index.format(mark)],
            ),
        }
    }
}
