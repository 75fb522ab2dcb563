//! Columns by a tag of their series.
ghost use Rattle.std.specs.Prelude.{◌↔◌, ℕ, IfSome, IfNone, IfOk};
ghost use Rattle.ts_core.specs.lists.Members.{Among, AllDistinct};
ghost use Rattle.ts_raw.specs.Tagged.{IsRisingList, IsTaggedAt, AreTaggedAt};

use crate::index::column_id::ColumnId;
use crate::index::columns::ColumnTable;
use crate::index::series::SeriesTable;
use crate::index::series_id::SeriesId;
use std::alloc::{AllocError, Allocator};

/// Returns the column of a series and a field, by their indices, if the series has the value of a tag.
fn tagged_column<A: Allocator + Copy>(
    series: &SeriesTable<A>,
    columns: &ColumnTable<A>,
    number: u32,
    field: u32,
    tag: &str,
    value: &str,
) -> Option<ColumnId>
    ensures found { IfSome result (λ n. IsTaggedAt series.now columns.now.columns field tag.now value.now number n) }
    ensures absent { IfNone result ((n : ℕ)
        → IsTaggedAt series.now columns.now.columns field tag.now value.now number n → ⊥) }
{
    if number as usize >= series.len() {
        return None;
    }
    if series.key(SeriesId { number }).tag_value(tag) != value {
        return None;
    }
    columns.lookup(number, field)
}

/// Returns the columns of a field and these series, of the series that have the value of a tag.
pub(crate) fn tagged_columns<A: Allocator + Copy>(
    alloc: A,
    series: &SeriesTable<A>,
    columns: &ColumnTable<A>,
    numbers: &[u32],
    field: u32,
    tag: &str,
    value: &str,
) -> Result<Vec<ColumnId, A>, AllocError>
    requires { AllDistinct columns.now.columns }
    ensures { IfOk result
        (λ v. AreTaggedAt series.now columns.now.columns field tag.now value.now numbers.now v.items) }
{
    let mut found = Vec::new(alloc);
    for number in numbers {
        if let Some(column) = tagged_column(series, columns, *number, field, tag, value) {
            found.push(column)?;
        }
    }
    Ok(found)
}

/// Sorts columns into creation order, each once.
pub(crate) fn sort_and_dedup<A: Allocator>(columns: &mut Vec<ColumnId, A>)
    ensures rise { IsRisingList columns.new.items }
    ensures same { (n : ℕ) → Among n columns.old.items ↔ Among n columns.new.items }
{
    columns.sort_unstable();
    columns.dedup();
}
