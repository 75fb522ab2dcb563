//! A parsed line: its parts with their spans, and its tags sorted by key.
ghost use Rattle.std.specs.Prelude.{◌≡◌, ◌<◌, ◌≤◌, ◌+◌, [], length, map, MatchResult};
ghost use Rattle.arrayvec.specs.ArrayVec.{array_vec_len};
ghost use Rattle.std.specs.Cow.{cow_str_bytes};
ghost use Rattle.std.specs.FinMap.{put};
ghost use Rattle.ts_core.specs.facts.Facts.{text_cmp};
ghost use Rattle.ts_core.specs.lists.Members.{AllDistinct};
ghost use Rattle.ts_core.specs.text.Texts.{borrowed_pairs, IsTagSet};
ghost use Rattle.ts_line.specs.Names.{AreKeys, AreTagTexts, IsStatable};
ghost use Rattle.ts_line.specs.Parts.{field_text, series_of, tag_texts};
ghost use Rattle.ts_line.specs.Sorting.{key_offset_from, rise};

use arrayvec::ArrayVec;
use std::alloc::Allocator;
use std::borrow::CowStr;
use std::cmp::Ordering;
use std::marker::Model;
use ts_core::Time;

/// Limit on the tags of a line.
pub(crate) const TAG_LIMIT: usize = 64;

/// Part of a line. Borrows from the line; only a part with an escape owns its text.
#[derive(Drop)]
pub struct Part<'a, A: Allocator> {
    start: usize,
    raw: &'a str,
    text: CowStr<'a, A>,
}

impl<'a, A: Allocator> Model for Part<'a, A> {
    ghost use Rattle.std.specs.Cow.{cow_str_bytes};
    ghost use Rattle.ts_line.specs.Parts.{LinePart};

    ghost Value = { LinePart };

    ghost view = { λ p. record { start = p.start; raw = p.raw.now; text = cow_str_bytes p.text } };
}

impl<'a, A: Allocator> Part<'a, A> {
    /// Creates a part from its byte offset, its bytes in the line and its unescaped text.
    pub fn new(start: usize, raw: &'a str, text: CowStr<'a, A>) -> Self
        ensures { result ≡ record { start = start; raw = raw.now; text = cow_str_bytes text.entry } }
    {
        Part { start, raw, text }
    }

    /// Creates a part without an escape from its byte offset and its bytes in the line.
    pub(crate) fn plain(start: usize, raw: &'a str) -> Self
        ensures { result ≡ record { start = start; raw = raw.now; text = raw.now } }
    {
        Part {
            start,
            raw,
            text: CowStr::Borrowed(raw),
        }
    }

    /// Returns the byte offset of the part in the line.
    pub fn start(&self) -> usize
        ensures { result ≡ self.now.start }
    {
        self.start
    }

    /// Returns the bytes of the part as written in the line.
    pub fn raw(&self) -> &'a str
        ensures { result.now ≡ self.now.raw }
    {
        self.raw
    }

    /// Returns the part's text, with escapes resolved.
    pub fn text(&self) -> &str
        ensures { result.now ≡ self.now.text }
    {
        self.text.as_str()
    }
}

/// Tag of a line: a key and a value.
#[derive(Drop)]
pub struct Tag<'a, A: Allocator> {
    key: Part<'a, A>,
    value: Part<'a, A>,
}

impl<'a, A: Allocator> Model for Tag<'a, A> {
    ghost use Rattle.ts_line.specs.Parts.{LinePart};

    ghost Value = { LinePart × LinePart };

    ghost view = { λ t. (t.key, t.value) };
}

impl<'a, A: Allocator> Tag<'a, A> {
    /// Creates a tag.
    pub fn new(key: Part<'a, A>, value: Part<'a, A>) -> Self
        ensures { result ≡ (key.entry, value.entry) }
    {
        Tag { key, value }
    }

    /// Returns the key.
    pub fn key(&self) -> &Part<'a, A>
        ensures { result.now ≡ self.now.0 }
    {
        &self.key
    }

    /// Returns the value.
    pub fn value(&self) -> &Part<'a, A>
        ensures { result.now ≡ self.now.1 }
    {
        &self.value
    }
}

/// Field of a line: a name and a value.
#[derive(Drop)]
pub struct Field<'a, A: Allocator> {
    name: Part<'a, A>,
    value: i64,
}

impl<'a, A: Allocator> Model for Field<'a, A> {
    ghost use Rattle.std.specs.Prelude.{ℤ};
    ghost use Rattle.ts_line.specs.Parts.{LinePart};

    ghost Value = { LinePart × ℤ };

    ghost view = { λ f. (f.name, f.value) };
}

impl<'a, A: Allocator> Field<'a, A> {
    /// Creates a field.
    pub fn new(name: Part<'a, A>, value: i64) -> Self
        ensures { result ≡ (name.entry, value) }
    {
        Field { name, value }
    }

    /// Returns the name.
    pub fn name(&self) -> &Part<'a, A>
        ensures { result.now ≡ self.now.0 }
    {
        &self.name
    }

    /// Returns the value.
    pub fn value(&self) -> i64
        ensures { result ≡ self.now.1 }
    {
        self.value
    }

    /// Replaces the value by another field's.
    pub(crate) fn replace_value(&mut self, newer: &Field<'_, A>)
        ensures { self.new ≡ (self.old.0, newer.now.1) }
    {
        self.value = newer.value;
    }
}

/// A parsed line: measurement, tags, fields and time.
#[derive(Drop)]
pub struct Line<'a, A: Allocator> {
    measurement: Part<'a, A>,
    tags: Vec<Tag<'a, A>, A>,
    fields: Vec<Field<'a, A>, A>,
    time: Time,
}

impl<'a, A: Allocator> Model for Line<'a, A> {
    ghost use Rattle.ts_line.specs.Parts.{Parts, AreParts};

    ghost Value = { Parts };

    ghost view = { λ l. record { measurement = l.measurement; tags = l.tags.items; fields = l.fields.items; time = l.time } };

    ghost invariant = { λ l. AreParts l.measurement l.tags.items l.fields.items };
}

impl<'a, A: Allocator> Line<'a, A> {
    ghost use Rattle.ts_line.specs.Parts.{AreParts};

    /// Creates a line, for a program that has its facts in another form than text. It has at most 64 tags, and 1 to 256
    /// fields with distinct names. No text is empty, and no tag or field is called `time`.
    pub fn new(
        measurement: Part<'a, A>,
        tags: Vec<Tag<'a, A>, A>,
        fields: Vec<Field<'a, A>, A>,
        time: Time,
    ) -> Self
        requires { AreParts measurement tags.items fields.items }
        ensures { result ≡ record {
          measurement = measurement.entry;
          tags = tags.entry.items;
          fields = fields.entry.items;
          time = time;
        } }
    {
        Line {
            measurement,
            tags,
            fields,
            time,
        }
    }

    /// Returns the measurement.
    pub fn measurement(&self) -> &Part<'a, A>
        ensures { result.now ≡ self.now.measurement }
    {
        &self.measurement
    }

    /// Returns the tags as ordered in the line: at most 64. No key or value is empty, and no key is `time`.
    pub fn tags(&self) -> &[Tag<'a, A>]
        ensures value { result.now ≡ self.now.tags }
        ensures few { length result.now ≤ 64 }
        ensures named { AreTagTexts (map tag_texts result.now) }
    {
        self.tags.as_slice()
    }

    /// Returns the fields, ordered by where their names first appear in the line: 1 to 256, with distinct names. No
    /// name is empty or `time`.
    pub fn fields(&self) -> &[Field<'a, A>]
        ensures value { result.now ≡ self.now.fields }
        ensures some { 1 ≤ length result.now }
        ensures few { length result.now ≤ 256 }
        ensures once { AllDistinct (map field_text result.now) }
        ensures named { AreKeys (map field_text result.now) }
    {
        self.fields.as_slice()
    }

    /// Returns the time: the line's timestamp, or `now` if it has none.
    pub fn time(&self) -> Time
        ensures { result ≡ self.now.time }
    {
        self.time
    }

    /// Writes the tags as (key, value) pairs into `pairs`, sorted by key in byte order. Does not allocate. `pairs` must
    /// be empty and have capacity for all tags. Creating an `ArrayVec` blanks all of it, so pass a small one if the
    /// line has few tags. The line's series is one that a line can state: no name is empty, no key is `time`.
    pub fn tags_by_key<'b, const N: usize>(&'b self, pairs: &mut ArrayVec<(&'b str, &'b str), N>)
        requires none { pairs.old.items ≡ [] }
        requires spare { length self.now.tags ≤ N }
        ensures value { borrowed_pairs pairs.new.items ≡ (series_of self.now).tags }
        ensures set { IsTagSet (borrowed_pairs pairs.new.items) }
        ensures named { IsStatable (series_of self.now) }
    {
        if rise(&self.tags) {
            push_all(pairs, &self.tags);
        } else {
            self.insert_all(pairs);
        }
    }

    /// Inserts the tags into `pairs` one by one in key order (insertion sort).
    #[cold]
    fn insert_all<'b, const N: usize>(&'b self, pairs: &mut ArrayVec<(&'b str, &'b str), N>)
        requires none { pairs.old.items ≡ [] }
        requires few { length self.now.tags ≤ N }
        ensures value { borrowed_pairs pairs.new.items ≡ (series_of self.now).tags }
        ensures set { IsTagSet (borrowed_pairs pairs.new.items) }
    {
        let mut left = self.tags();
        while let [rest @ .., tag] = left {
            insert(pairs, tag.key.text(), tag.value.text());
            left = rest;
        }
    }
}

/// Returns true if the tag keys strictly ascend in byte order.
fn rise<A: Allocator>(tags: &[Tag<'_, A>]) -> bool
    ensures { result ≡ rise (map tag_texts tags.now) }
{
    let mut left = tags;
    while let [tag, next, ..] = left {
        if tag.key.text().cmp(next.key.text()) != Ordering::Less {
            return false;
        }
        left = &left[1..];
    }
    true
}

/// Appends the tags as (key, value) pairs.
fn push_all<'a, A: Allocator, const N: usize>(
    pairs: &mut ArrayVec<(&'a str, &'a str), N>,
    tags: &'a [Tag<'_, A>],
)
    requires none { pairs.old.items ≡ [] }
    requires few { length tags.now ≤ N }
    ensures { borrowed_pairs pairs.new.items ≡ map tag_texts tags.now }
{
    for tag in tags {
        pairs.push((tag.key.text(), tag.value.text()));
    }
}

/// Searches pairs sorted by key (linear search). Returns `Ok` with the key's index, or `Err` with the index to insert
/// it at.
fn index_of(pairs: &[(&str, &str)], key: &str) -> Result<usize, usize>
    ensures value { result ≡ key_offset_from 0 key.now (borrowed_pairs pairs.now) }
    ensures bound { MatchResult result (λ at. at < length pairs.now) (λ at. at ≤ length pairs.now) }
{
    for (at, (other, _)) in pairs.iter().enumerate() {
        match key.cmp(other) {
            Ordering::Less => return Err(at),
            Ordering::Equal => return Ok(at),
            Ordering::Greater => {}
        }
    }
    Err(pairs.len())
}

/// Inserts a pair into pairs sorted by key, or replaces the value of its key.
fn insert<'a, const N: usize>(
    pairs: &mut ArrayVec<(&'a str, &'a str), N>,
    key: &'a str,
    value: &'a str,
)
    requires { array_vec_len pairs.old < N }
    ensures pairs { borrowed_pairs pairs.new.items ≡ put text_cmp key.now value.now (borrowed_pairs pairs.old.items) }
    ensures few { array_vec_len pairs.new ≤ array_vec_len pairs.old + 1 }
{
    match index_of(pairs, key) {
        Ok(at) => pairs[at] = (key, value),
        Err(at) => pairs.insert(at, (key, value)),
    }
}
