//! Writes series as JSON: groups of an answer with their rows. The part that all series of a query share is built once.
ghost use Rattle.std.specs.Prelude.{◌≡◌, ◌∷◌, ◌++◌, map, codes, IfOk, OnOk, string_bytes};
ghost use Rattle.serde_json.specs.Data.{object, member, no_members, string};
ghost use Rattle.serde_json.specs.View.{view, members_view};
ghost use Rattle.serde_json.specs.Written.{compact_text};
ghost use Rattle.ts_ql.specs.Selects.{texts};
ghost use Rattle.ts_reply.specs.AppendedData.{AppendsData};
ghost use Rattle.ts_reply.specs.Replies.{column_data, tags_among, IsSeriesData};
ghost use Rattle.ts_reply.specs.SeriesTexts.{series_head, grouped_tags_text};

use crate::row_times::Times;
use crate::rows::push_group_rows;
use crate::text::{push_quoted, push_value};
use serde_json::{Map, Value, put};
use std::alloc::{AllocError, Allocator, Global};
use ts_exec::{FilledGroup, GroupValues, GroupValuesIter};
use ts_ql::{Projection, Query};

/// Returns the column names, beginning with `time`.
fn columns_json<A: Allocator>(
    alloc: Global,
    columns: &[Projection<A>],
) -> Result<Vec<Value>, AllocError>
    ensures { IfOk result (λ v. map view v.items ≡ string (codes "time") ∷ map column_data columns.now) }
{
    let mut names = Vec::new(alloc);
    names.push(Value::try_from_str(alloc, "time")?)?;
    for column in columns {
        names.push(Value::try_from_str(alloc, column.name())?)?;
    }
    Ok(names)
}

/// Returns the beginning of every series of a query: its columns and its measurement.
pub(crate) fn series_head<A: Allocator>(
    alloc: Global,
    query: &Query<A>,
) -> Result<String, AllocError>
    ensures { IfOk result (λ s. string_bytes s ≡ series_head query.now) }
{
    let columns = Value::from(columns_json(alloc, query.columns())?);
    let mut head = String::from_str(alloc, "{\"columns\":")?;
    push_value(alloc, &mut head, &columns)?;
    head.push_str(",\"name\":")?;
    push_quoted(alloc, &mut head, query.measurement())?;
    Ok(head)
}

/// Inserts tags with their values into a JSON object.
fn insert_tags<A: Allocator>(
    members: &mut Map<String, Value>,
    alloc: Global,
    tags: &[String<A>],
    mut values: GroupValuesIter<'_, '_>,
) -> Result<(), AllocError>
    ensures { OnOk result (members_view members.new.entries
        ≡ tags_among (members_view members.old.entries) (texts tags.now) values.entry) }
{
    for tag in tags {
        let Some(value) = values.next() else {
            return Ok(());
        };
        put(
            members,
            alloc,
            tag.as_str(),
            Value::try_from_str(alloc, value)?,
        )?;
    }
    Ok(())
}

/// Appends tags with their values as a JSON object.
fn push_tag_map<A: Allocator>(
    alloc: Global,
    text: &mut String,
    tags: &[String<A>],
    values: &GroupValues<'_, '_>,
) -> Result<(), AllocError>
    ensures { OnOk result (string_bytes text.new
        ≡ string_bytes text.old ++ compact_text (object (tags_among no_members (texts tags.now) values.now))) }
{
    let mut members = Map::new(alloc);
    insert_tags(&mut members, alloc, tags, values.iter())?;
    push_value(alloc, text, &Value::from(members))
}

/// Appends one tag with its value as a JSON object.
fn push_tag(alloc: Global, text: &mut String, tag: &str, value: &str) -> Result<(), AllocError>
    ensures { OnOk result (string_bytes text.new
        ≡ string_bytes text.old ++ compact_text (object (member tag.now (string value.now) no_members))) }
{
    text.push_str("{")?;
    push_quoted(alloc, text, tag)?;
    text.push_str(":")?;
    push_quoted(alloc, text, value)?;
    text.push_str("}")
}

/// Appends the tags of a group, if the query groups by tags.
fn push_tags<A: Allocator>(
    alloc: Global,
    text: &mut String,
    tags: &[String<A>],
    values: &GroupValues<'_, '_>,
) -> Result<(), AllocError>
    ensures { OnOk result
        (string_bytes text.new ≡ string_bytes text.old ++ grouped_tags_text (texts tags.now) values.now) }
{
    if tags.is_empty() {
        return Ok(());
    }
    text.push_str(",\"tags\":")?;
    match values.iter().next() {
        Some(value) if tags.len() == 1 => push_tag(alloc, text, tags[0].as_str(), value),
        _ => push_tag_map(alloc, text, tags, values),
    }
}

/// Appends a group as a series: its columns, measurement, tags and rows.
pub(crate) fn push_group<A: Allocator>(
    alloc: Global,
    text: &mut String,
    times: &mut Times,
    query: &Query<A>,
    head: &str,
    group: FilledGroup<'_, '_, A>,
) -> Result<(), AllocError>
    requires { head.now ≡ series_head query.now }
    ensures value { OnOk result
        (AppendsData (IsSeriesData times.old query.now group.entry) (string_bytes text.old) (string_bytes text.new)) }
    ensures same { times.new ≡ times.old }
{
    text.push_str(head)?;
    push_tags(alloc, text, query.group_tags(), &group.values)?;
    text.push_str(",\"values\":")?;
    push_group_rows(alloc, text, times, group.rows)?;
    text.push_str("}")
}
