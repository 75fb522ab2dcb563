//! Line protocol of a column: its lines up to the value, with escapes.
ghost use Rattle.std.specs.Prelude.{◌≡◌, ◌++◌, map, codes, IfOk, OnOk};
ghost use Rattle.ts_core.specs.text.Texts.{owned_pairs};
ghost use Rattle.ts_line.specs.Scan.{is_stop};
ghost use Rattle.ts_line.specs.Spelling.{tags_text};
ghost use Rattle.tsdb.specs.Exports.{stops_of, escaped_byte, escaped, escaped_tag, key_text, line_start, NamesAreRead};
ghost use Rattle.ts_line.specs.declared.scan.Stops.TheVariants.{Equals};

use std::alloc::{AllocError, Global};
use ts_core::Key;

/// Limit on the bytes of a series key in a line.
const KEY_LIMIT: usize = 4096;

/// Limit on the bytes of a line up to its value: that of a line, less those of the longest value and time.
const HEAD_LIMIT: usize = 65_536 - 43;

/// Part of a line, by the delimiters that need a backslash there.
#[derive(Clone, Copy)]
pub enum NamePart {
    /// The measurement: comma and space.
    Measurement,
    /// A key or a value of a tag, or a field: also the equals sign.
    Key,
}

impl NamePart {
    /// Returns true if the byte needs a backslash.
    fn is_delimiter(self, byte: u8) -> bool
        ensures { result ≡ is_stop (stops_of self) byte }
    {
        match self {
            NamePart::Measurement => byte == b' ' || byte == b',',
            NamePart::Key => byte == b' ' || byte == b',' || byte == b'=',
        }
    }
}

/// Appends a byte of a name, with a backslash before a delimiter.
fn push_byte(line: &mut Vec<u8>, part: NamePart, byte: u8) -> Result<(), AllocError>
    ensures { OnOk result (line.new.items ≡ line.old.items ++ escaped_byte (stops_of part) byte) }
{
    if part.is_delimiter(byte) {
        line.push(b'\\')?;
    }
    line.push(byte)?;
    Ok(())
}

/// Appends a name, with a backslash before each delimiter.
fn push_name(line: &mut Vec<u8>, part: NamePart, name: &str) -> Result<(), AllocError>
    ensures { OnOk result (line.new.items ≡ line.old.items ++ escaped (stops_of part) name.now) }
{
    for byte in name.as_bytes() {
        push_byte(line, part, *byte)?;
    }
    Ok(())
}

/// Appends a tag after a comma.
fn push_tag(line: &mut Vec<u8>, key: &str, value: &str) -> Result<(), AllocError>
    ensures { OnOk result (line.new.items
        ≡ line.old.items ++ (codes "," ++ (escaped Equals key.now ++ (codes "=" ++ escaped Equals value.now)))) }
{
    line.push(b',')?;
    push_name(line, NamePart::Key, key)?;
    line.push(b'=')?;
    push_name(line, NamePart::Key, value)
}

/// Appends tags, each after a comma.
fn push_tags(line: &mut Vec<u8>, tags: &[(String, String)]) -> Result<(), AllocError>
    ensures { OnOk result (line.new.items ≡ line.old.items ++ tags_text (map escaped_tag (owned_pairs tags.now))) }
{
    match tags.split_first() {
        None => Ok(()),
        Some((tag, others)) => {
            push_tag(line, tag.0.as_str(), tag.1.as_str())?;
            push_tags(line, others)
        }
    }
}

/// Returns the key of a series as a line states it: the measurement and the tags.
pub fn key_text(alloc: Global, key: &Key<Global>) -> Result<Vec<u8>, AllocError>
    ensures { IfOk result (λ text. text.items ≡ key_text key.now) }
{
    let mut line = Vec::new(alloc);
    push_name(&mut line, NamePart::Measurement, key.measurement())?;
    push_tags(&mut line, key.tags())?;
    Ok(line)
}

/// Returns the lines of a column up to the value: the key of its series, and the field with an equals sign.
pub fn line_start(alloc: Global, key: &[u8], field: &str) -> Result<Vec<u8>, AllocError>
    ensures { IfOk result (λ text. text.items ≡ line_start key.now field.now) }
{
    let mut line = Vec::new(alloc);
    line.extend_from_slice(key)?;
    line.push(b' ')?;
    push_name(&mut line, NamePart::Key, field)?;
    line.push(b'=')?;
    Ok(line)
}

/// Returns true if a name can stand in a line: it doesn't end in a backslash and has no line feed.
fn is_name(name: &str) -> bool
    ensures read { NamesAreRead }
{
    name.as_bytes().last() != Some(&b'\\') && !name.as_bytes().contains(&b'\n')
}

/// Returns true if a line can state the key of a series, whose text is `text`.
pub fn is_key(key: &Key<Global>, text: &[u8]) -> bool {
    text.len() <= KEY_LIMIT
        && !key.measurement().starts_with("#")
        && is_name(key.measurement())
        && key
            .tags()
            .iter()
            .all(|tag| is_name(tag.0.as_str()) && is_name(tag.1.as_str()))
}

/// Returns true if a line can state a field, with this text of the line up to the value.
pub fn is_field(field: &str, head: &[u8]) -> bool {
    head.len() <= HEAD_LIMIT && is_name(field)
}
