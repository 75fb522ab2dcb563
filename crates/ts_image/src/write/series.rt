//! Writes keys of series to an image.
ghost use Rattle.std.specs.Prelude.{◌<◌, length, map};
ghost use Rattle.std.specs.Int.{w8};
ghost use Rattle.ts_core.specs.text.Texts.{owned_pairs};
ghost use Rattle.ts_image.specs.Formats.{text, also, list_of};
ghost use Rattle.ts_image.specs.Images.{image_series_key};
ghost use Rattle.ts_image.specs.SeriesParts.{tag_of};
ghost use Rattle.ts_image.specs.FieldWriting.{PutsField, PutsAll};

use crate::write::fields::{put_text, put_u8};
use std::alloc::Allocator;
use std::io::Write;
use ts_core::{Key, OutputBuffer, Refused, Sink};

/// Writes a tag.
fn put_tag<W: Write, A: Allocator>(
    tag: &(String<A>, String<A>),
    out: &mut OutputBuffer<A>,
    sink: &mut Sink<W>,
) -> Result<(), Refused>
    ensures { PutsField (also text text) (tag_of tag.now) sink.old out.old result sink.new out.new }
{
    put_text(tag.0.as_str(), out, sink)?;
    put_text(tag.1.as_str(), out, sink)
}

/// Writes tags, one after another.
fn put_tags<W: Write, A: Allocator>(
    tags: &[(String<A>, String<A>)],
    out: &mut OutputBuffer<A>,
    sink: &mut Sink<W>,
) -> Result<(), Refused>
    ensures { PutsAll (also text text) (map tag_of tags.now) sink.old out.old result sink.new out.new }
{
    for tag in tags {
        put_tag(tag, out, sink)?;
    }
    Ok(())
}

/// Writes the number of tags, and the tags.
fn put_counted_tags<W: Write, A: Allocator>(
    tags: &[(String<A>, String<A>)],
    out: &mut OutputBuffer<A>,
    sink: &mut Sink<W>,
) -> Result<(), Refused>
    requires { length tags.now < 256 }
    ensures { PutsField (list_of w8 (also text text)) (owned_pairs tags.now) sink.old out.old result sink.new out.new }
{
    put_u8(tags.len() as u8, out, sink)?;
    put_tags(tags, out, sink)
}

/// Writes the key of a series.
pub(crate) fn put_key<W: Write, A: Allocator + Copy>(
    key: &Key<A>,
    out: &mut OutputBuffer<A>,
    sink: &mut Sink<W>,
) -> Result<(), Refused>
    requires { length key.now.tags < 256 }
    ensures { PutsField image_series_key key.now sink.old out.old result sink.new out.new }
{
    put_text(key.measurement(), out, sink)?;
    put_counted_tags(key.tags(), out, sink)
}
