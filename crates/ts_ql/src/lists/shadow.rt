//! Ghost lists: they have size 0, and their methods do nothing at run time.
ghost use Rattle.std.specs.Prelude.{◌≡◌};
ghost use Rattle.std.specs.Borrow.{ftrue};
ghost use Rattle.ts_ql.specs.Lists.{Lists, no_lists, column_appended, condition_appended, tag_inserted, query_appended};

use crate::lists::columns::Column;
use crate::lists::conditions::TagTest;
use crate::lists::queries::Outline;
use crate::lists::tags::Tag;
use std::marker::{Model, PhantomData};
use std::mem::size_of;

/// Ghost lists. Nothing but the bodies that call these methods relates them to lists in memory.
#[derive(Drop)]
pub(crate) struct Shadow {
    marker: PhantomData<u8>,
    pub ghost lists: { Lists },
}

impl Model for Shadow {
    ghost also_owns = { λ _. ftrue };
}

impl Shadow {
    /// Creates empty lists.
    pub fn new() -> Shadow
        ensures { result.lists ≡ no_lists }
    {
        Shadow {
            marker: PhantomData,
        }
    }

    /// Returns the lists with another column.
    pub fn with_column(_before: &Shadow, _column: &Column<'_>) -> Shadow
        ensures { result.lists ≡ column_appended _column.now _before.now.lists }
    {
        Shadow {
            marker: PhantomData,
        }
    }

    /// Returns the lists with another condition.
    pub fn with_condition(_before: &Shadow, _test: &TagTest<'_>) -> Shadow
        ensures { result.lists ≡ condition_appended _test.now _before.now.lists }
    {
        Shadow {
            marker: PhantomData,
        }
    }

    /// Returns the lists with another tag.
    pub fn with_tag(_before: &Shadow, _tag: &Tag<'_>) -> Shadow
        ensures { result.lists ≡ tag_inserted _tag.now _before.now.lists }
    {
        Shadow {
            marker: PhantomData,
        }
    }

    /// Returns the lists with another query, made of the lists of its statement and its outline.
    pub fn with_query(
        _before: &Shadow,
        _columns: &Shadow,
        _conditions: &Shadow,
        _tags: &Shadow,
        _outline: &Outline<'_>,
    ) -> Shadow
        ensures { result.lists
            ≡ query_appended _columns.now.lists _conditions.now.lists _tags.now.lists _outline.now _before.now.lists }
    {
        Shadow {
            marker: PhantomData,
        }
    }
}

const _: () = prove!(size_of::<Shadow>() == 0);
