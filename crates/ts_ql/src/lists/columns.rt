//! Columns of a statement.
ghost use Rattle.std.specs.Prelude.{◌≡◌, [], ◌∷◌, ◌++◌, bytes_eq, codes, IfOk};
ghost use Rattle.std.specs.Str.{IsCharBoundary};
ghost use Rattle.ts_ql.specs.ColumnReading.{HasColumns};
ghost use Rattle.ts_ql.specs.Lists.{spelled_by, projection};
ghost use Rattle.ts_ql.specs.Statements.{repeats};

use crate::keywords::function_name;
use crate::lists::column_reader::ColumnReader;
use crate::lists::shadow::Shadow;
use crate::literal::{is_spelled_alike, text_spelled};
use crate::query::Projection;
use std::alloc::{AllocError, Allocator};
use std::collections::BTreeSet;
use std::marker::Model;
use ts_core::Function;

/// Column as written: a function, and a name if AS gives one.
#[derive(Clone, Copy)]
pub(crate) struct Column<'a> {
    pub function: Function,
    pub alias: Option<&'a str>,
}

/// Columns of a statement, in its order.
#[derive(Drop)]
pub(crate) struct Columns<A: Allocator> {
    /// `None` after memory was refused.
    columns: Option<Vec<Projection<A>, A>>,
    shadow: Shadow,
}

impl<A: Allocator> Model for Columns<A> {
    ghost use Rattle.std.specs.Prelude.{◌≡◌, List, IfSome};
    ghost use Rattle.ts_ql.specs.Selects.{Projection as ProjectionValue};

    ghost Value = { List ProjectionValue };

    ghost view = { λ c. c.shadow.lists.columns };

    ghost invariant = { λ c. IfSome c.columns (λ v. v.items ≡ c.shadow.lists.columns) };
}

/// Returns true if two columns have the same name, or one is named `time`.
fn repeats<A: Allocator + Copy>(alloc: A, columns: &[Projection<A>]) -> Result<bool, AllocError>
    ensures { IfOk result (λ found. found ≡ repeats columns.now) }
{
    let mut names = BTreeSet::new(alloc);
    for column in columns {
        let name = column.name();
        if name == "time" || !names.insert(name)? {
            return Ok(true);
        }
    }
    Ok(false)
}

impl<'a> Column<'a> {
    /// Returns the name as written: the alias, or else the function's name.
    #[tactic(auto, using(crate::proofs::LiteralLemmas::spelled_function))]
    fn written_name(&self) -> &'a str
        ensures { spelled_by result ≡ (projection self.now).name }
    {
        match self.alias {
            Some(alias) => alias,
            None => function_name(self.function),
        }
    }

    /// Returns true if the column is named `time`.
    pub fn is_time(&self) -> bool
        ensures { result ≡ bytes_eq (projection self.now).name (codes "time") }
    {
        is_spelled_alike(self.written_name(), "time")
    }

    /// Returns true if another column has this one's name.
    pub fn is_named_as(&self, other: &Column<'_>) -> bool
        ensures { result ≡ bytes_eq (projection self.now).name (projection other.now).name }
    {
        is_spelled_alike(self.written_name(), other.written_name())
    }

    /// Creates the column of a query.
    fn projection<A: Allocator + Copy>(&self, alloc: A) -> Result<Projection<A>, AllocError>
        ensures { IfOk result (λ column. column ≡ projection self.now) }
    {
        let name = match self.alias {
            Some(alias) => text_spelled(alloc, alias)?,
            None => String::from_str(alloc, function_name(self.function))?,
        };
        Ok(Projection::new(self.function, name))
    }
}

/// Appends a column.
fn push<A: Allocator + Copy>(
    alloc: A,
    columns: &mut Vec<Projection<A>, A>,
    column: &Column<'_>,
) -> Result<(), AllocError>
    ensures { IfOk result (λ _. columns.new.items ≡ columns.old.items ++ projection column.now ∷ []) }
{
    columns.push(column.projection(alloc)?)?;
    Ok(())
}

impl<A: Allocator + Copy> Columns<A> {
    /// Creates an empty list.
    pub fn new(alloc: A) -> Columns<A>
        ensures { result ≡ [] }
    {
        Columns {
            columns: Some(Vec::new(alloc)),
            shadow: Shadow::new(),
        }
    }

    /// Appends a column.
    pub fn push(&mut self, alloc: A, column: &Column<'_>)
        ensures { self.new ≡ self.old ++ projection column.now ∷ [] }
    {
        self.shadow = Shadow::with_column(&self.shadow, column);
        if let Some(columns) = &mut self.columns {
            if push(alloc, columns, column).is_err() {
                self.columns = None;
            }
        }
    }

    /// Returns true if two columns have the same name, or one is named `time`. They are those of the statement whose
    /// SELECT is at offset `start`. If memory is refused, they are read once more from the text.
    pub fn repeat(&self, alloc: A, text: &str, start: usize) -> bool
        requires boundary { IsCharBoundary text.now start }
        requires columns { HasColumns text.now start self.now }
        ensures { result ≡ repeats self.now }
    {
        if let Some(columns) = &self.columns {
            if let Ok(found) = repeats(alloc, columns.as_slice()) {
                return found;
            }
        }
        ColumnReader::new(text, start).repeats()
    }

    /// Returns the list. Fails if memory was refused.
    pub fn into_vec(self) -> Result<Vec<Projection<A>, A>, AllocError>
        ensures { IfOk result (λ columns. columns.items ≡ self) }
    {
        self.columns.ok_or(AllocError)
    }

    /// Returns the ghost of the list.
    pub fn shadow(&self) -> &Shadow
        ensures { result.now.lists.columns ≡ self.now }
    {
        &self.shadow
    }
}
