//! Group tags of a statement.
ghost use Rattle.std.specs.Prelude.{◌≡◌, [], IfOk};
ghost use Rattle.std.specs.List.Sorted.{IsStrictlySortedBy};
ghost use Rattle.ts_core.specs.facts.Facts.{text_cmp};
ghost use Rattle.ts_ql.specs.Literals.{text_spelled};
ghost use Rattle.ts_ql.specs.Selects.{inserted_text, texts};

use crate::lists::shadow::Shadow;
use crate::literal::text_spelled;
use std::alloc::{AllocError, Allocator};
use std::collections::BTreeSet;
use std::marker::Model;

/// Tag as written.
#[derive(Clone, Copy)]
pub(crate) struct Tag<'a> {
    pub name: &'a str,
}

/// Group tags of a statement, a sorted set.
#[derive(Drop)]
pub(crate) struct Tags<A: Allocator> {
    /// `None` after memory was refused.
    tags: Option<BTreeSet<String<A>, A>>,
    shadow: Shadow,
}

impl<A: Allocator> Model for Tags<A> {
    ghost use Rattle.std.specs.Prelude.{◌≡◌, List, IfSome};
    ghost use Rattle.ts_core.specs.facts.Facts.{Text};
    ghost use Rattle.ts_ql.specs.Selects.{texts};

    ghost Value = { List Text };

    ghost view = { λ t. t.shadow.lists.tags };

    ghost invariant = { λ t. IfSome t.tags (λ set. texts set.keys ≡ t.shadow.lists.tags) };
}

/// Inserts a tag.
fn insert<A: Allocator + Copy>(
    alloc: A,
    tags: &mut BTreeSet<String<A>, A>,
    name: &str,
) -> Result<(), AllocError>
    ensures { IfOk result (λ _. texts tags.new.keys ≡ inserted_text (text_spelled name.now) (texts tags.old.keys)) }
{
    tags.insert(text_spelled(alloc, name)?)?;
    Ok(())
}

/// Returns the tags in byte order, without duplicates.
fn in_order<A: Allocator + Copy>(
    alloc: A,
    tags: BTreeSet<String<A>, A>,
) -> Result<Vec<String<A>, A>, AllocError>
    ensures value { IfOk result (λ list. texts list.items ≡ texts tags.keys) }
    ensures order { IfOk result (λ list. IsStrictlySortedBy text_cmp (texts list.items)) }
{
    // For the proof: the tags have this order.
    let _order = tags.iter();
    tags.into_iter().collect(alloc)
}

impl<A: Allocator + Copy> Tags<A> {
    /// Creates an empty set.
    pub fn new(alloc: A) -> Tags<A>
        ensures { result ≡ [] }
    {
        Tags {
            tags: Some(BTreeSet::new(alloc)),
            shadow: Shadow::new(),
        }
    }

    /// Inserts a tag.
    pub fn insert(&mut self, alloc: A, name: &str)
        ensures { self.new ≡ inserted_text (text_spelled name.now) self.old }
    {
        self.shadow = Shadow::with_tag(&self.shadow, &Tag { name });
        if let Some(tags) = &mut self.tags {
            if insert(alloc, tags, name).is_err() {
                self.tags = None;
            }
        }
    }

    /// Returns the tags in byte order, without duplicates. Fails if memory was refused.
    pub fn into_vec(self, alloc: A) -> Result<Vec<String<A>, A>, AllocError>
        ensures value { IfOk result (λ tags. texts tags.items ≡ self) }
        ensures order { IfOk result (λ tags. IsStrictlySortedBy text_cmp (texts tags.items)) }
    {
        match self.tags {
            Some(tags) => in_order(alloc, tags),
            None => Err(AllocError),
        }
    }

    /// Returns the ghost of the set.
    pub fn shadow(&self) -> &Shadow
        ensures { result.now.lists.tags ≡ self.now }
    {
        &self.shadow
    }
}
