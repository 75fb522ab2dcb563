//! A rollup series of a rule: a field with the values of the kept tags.
ghost use Rattle.std.specs.Prelude.{◌≡◌, ◌↔◌, IsTrue, IfOk, map, string_bytes};
ghost use Rattle.std.specs.Cmp.Lexicographic.{slice_cmp};
ghost use Rattle.ts_core.specs.facts.Facts.{text_cmp};
ghost use Rattle.ts_cells.specs.Grids.{borrowed_texts, rollup_series_named};
ghost use Rattle.ts_cells.specs.RollupSeriesTable.{rollup_series_cmp, hash_of_rollup_series};

use std::alloc::{AllocError, Allocator};
use std::cmp::Ordering;
use std::hash::{BuildHasher, Hasher, RandomState};
use std::marker::Model;
use ts_core::hash_text;

/// Index of a rollup series, in creation order from 0.
#[derive(Clone, Copy, Debug, PartialEq, Eq)]
pub struct RollupSeriesId {
    number: u32,
}

impl RollupSeriesId {
    /// Creates the id of an index.
    pub(crate) fn new(number: u32) -> RollupSeriesId
        ensures { result ≡ number }
    {
        RollupSeriesId { number }
    }

    /// Returns the index, which is the number of rollup series created before.
    pub fn number(self) -> u32
        ensures { result ≡ self }
    {
        self.number
    }
}

impl Model for RollupSeriesId {
    ghost use Rattle.std.specs.Prelude.{ℕ};

    ghost Value = { ℕ };

    ghost view = { λ id. id.number };

    ghost inverse = { λ n. record { number = n } };
}

/// A field with a group: the values of a rule's kept tags.
#[derive(Drop)]
pub(crate) struct RollupSeries<A: Allocator> {
    field: String<A>,
    group: Vec<String<A>, A>,
}

impl<A: Allocator> Model for RollupSeries<A> {
    ghost use Rattle.std.specs.Prelude.{string_bytes, map};
    ghost use Rattle.ts_cells.specs.Grids.{RollupSeries as RollupSeriesValue, coded_rollup_series};

    ghost Value = { RollupSeriesValue };

    ghost coded = { coded_rollup_series };

    ghost view = { λ l. record { field = string_bytes l.field; group = map string_bytes l.group.items } };
}

fn owned<A: Allocator + Copy>(alloc: A, texts: &[&str]) -> Result<Vec<String<A>, A>, AllocError>
    ensures { IfOk result (λ v. map string_bytes v.items ≡ borrowed_texts texts.now) }
{
    let mut all = Vec::with_capacity(alloc, texts.len())?;
    for text in texts {
        all.push(String::from_str(alloc, text)?)?;
    }
    Ok(all)
}

/// Returns the hash of a rollup series, by a seed.
pub(crate) fn hash_rollup_series(seed: &RandomState, field: &str, group: &[&str]) -> u64
    ensures { result ≡ hash_of_rollup_series seed.now (rollup_series_named field.now group.now) }
{
    let mut hasher = seed.build_hasher();
    hash_text(&mut hasher, field);
    for text in group {
        hash_text(&mut hasher, text);
    }
    hasher.finish()
}

/// Compares two lists of texts lexicographically, each text by its bytes.
fn compare_strings<A: Allocator>(texts: &[String<A>], others: &[&str]) -> Ordering
    ensures { result ≡ slice_cmp text_cmp (map string_bytes texts.now) (borrowed_texts others.now) }
{
    match (texts.split_first(), others.split_first()) {
        (None, None) => Ordering::Equal,
        (None, Some(_)) => Ordering::Less,
        (Some(_), None) => Ordering::Greater,
        (Some((text, texts)), Some((other, others))) => match text.as_str().cmp(other) {
            Ordering::Equal => compare_strings(texts, others),
            order => order,
        },
    }
}

impl<A: Allocator + Copy> RollupSeries<A> {
    pub(crate) fn new(alloc: A, field: &str, group: &[&str]) -> Result<RollupSeries<A>, AllocError>
        ensures { IfOk result (λ l. l ≡ rollup_series_named field.now group.now) }
    {
        Ok(RollupSeries {
            field: String::from_str(alloc, field)?,
            group: owned(alloc, group)?,
        })
    }

    /// Returns the field.
    pub(crate) fn field(&self) -> &str
        ensures { result.now ≡ self.now.field }
    {
        self.field.as_str()
    }

    /// Returns the group.
    pub(crate) fn group(&self) -> &[String<A>]
        ensures { map string_bytes result.now ≡ self.now.group }
    {
        self.group.as_slice()
    }

    /// Compares this rollup series with that of a field and a group.
    pub(crate) fn compare(&self, field: &str, group: &[&str]) -> Ordering
        ensures { result ≡ rollup_series_cmp self.now (rollup_series_named field.now group.now) }
    {
        match self.field.as_str().cmp(&field) {
            Ordering::Equal => compare_strings(self.group.as_slice(), group),
            order => order,
        }
    }
    /// Returns true if this is the rollup series of a field and a group.
    pub(crate) fn matches(&self, field: &str, group: &[&str]) -> bool
        ensures { IsTrue result ↔ (self.now ≡ rollup_series_named field.now group.now) }
    {
        self.compare(field, group).is_eq()
    }
}
