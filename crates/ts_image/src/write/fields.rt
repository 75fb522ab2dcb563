//! Writes the fields of an image through a write buffer.
ghost use Rattle.std.specs.Prelude.{FitsSigned, map, string_bytes};
ghost use Rattle.std.specs.Int.{w8, w32, w64, w128};
ghost use Rattle.ts_image.specs.Formats.{number, signed_number, text};
ghost use Rattle.ts_image.specs.FieldWriting.{PutsField, PutsAll};

use std::alloc::Allocator;
use std::io::Write;
use ts_core::{OutputBuffer, Refused, Sink};

/// Writes a number of one byte.
pub(crate) fn put_u8<W: Write, A: Allocator>(
    value: u8,
    out: &mut OutputBuffer<A>,
    sink: &mut Sink<W>,
) -> Result<(), Refused>
    ensures { PutsField (number w8) value sink.old out.old result sink.new out.new }
{
    out.write_all(&value.to_be_bytes(), sink)
}

/// Writes a number of four bytes.
pub(crate) fn put_u32<W: Write, A: Allocator>(
    value: u32,
    out: &mut OutputBuffer<A>,
    sink: &mut Sink<W>,
) -> Result<(), Refused>
    ensures { PutsField (number w32) value sink.old out.old result sink.new out.new }
{
    out.write_all(&value.to_be_bytes(), sink)
}

/// Writes a number of eight bytes.
pub(crate) fn put_u64<W: Write, A: Allocator>(
    value: u64,
    out: &mut OutputBuffer<A>,
    sink: &mut Sink<W>,
) -> Result<(), Refused>
    ensures { PutsField (number w64) value sink.old out.old result sink.new out.new }
{
    out.write_all(&value.to_be_bytes(), sink)
}

/// Writes a signed number of eight bytes.
pub(crate) fn put_i64<W: Write, A: Allocator>(
    value: &i64,
    out: &mut OutputBuffer<A>,
    sink: &mut Sink<W>,
) -> Result<(), Refused>
    ensures { PutsField (signed_number w64) value.now sink.old out.old result sink.new out.new }
{
    out.write_all(&value.to_be_bytes(), sink)
}

/// Writes a signed number of sixteen bytes.
pub(crate) fn put_i128<W: Write, A: Allocator>(
    value: &i128,
    out: &mut OutputBuffer<A>,
    sink: &mut Sink<W>,
) -> Result<(), Refused>
    ensures { PutsField (signed_number w128) value.now sink.old out.old result sink.new out.new }
{
    out.write_all(&value.to_be_bytes(), sink)
}

/// Writes a text: its length and its bytes.
pub(crate) fn put_text<W: Write, A: Allocator>(
    value: &str,
    out: &mut OutputBuffer<A>,
    sink: &mut Sink<W>,
) -> Result<(), Refused>
    ensures { PutsField text value.now sink.old out.old result sink.new out.new }
{
    out.write_all(&(value.len() as u64).to_be_bytes(), sink)?;
    out.write_all(value.as_bytes(), sink)
}

/// Writes texts, one after another.
pub(crate) fn put_strings<W: Write, A: Allocator>(
    texts: &[String<A>],
    out: &mut OutputBuffer<A>,
    sink: &mut Sink<W>,
) -> Result<(), Refused>
    ensures { PutsAll text (map string_bytes texts.now) sink.old out.old result sink.new out.new }
{
    for text in texts {
        put_text(text.as_str(), out, sink)?;
    }
    Ok(())
}

/// Writes the index of a bucket in eight bytes.
pub(crate) fn put_index<W: Write, A: Allocator>(
    index: &i128,
    out: &mut OutputBuffer<A>,
    sink: &mut Sink<W>,
) -> Result<(), Refused>
    requires { FitsSigned w64 index.now }
    ensures { PutsField (signed_number w64) index.now sink.old out.old result sink.new out.new }
{
    put_i64(&(*index as i64), out, sink)
}
