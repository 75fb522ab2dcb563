//! Owned name of a field.
ghost use Rattle.std.specs.Prelude.{◌≡◌, IfOk};

use std::alloc::{AllocError, Allocator};
use std::marker::Model;

/// Owned name of a field. Its model is the list of its bytes. (InfluxData 1.8: field key.)
#[derive(Drop)]
pub struct FieldName<A: Allocator> {
    name: String<A>,
}

impl<A: Allocator> Model for FieldName<A> {
    ghost use Rattle.std.specs.Prelude.{string_bytes};
    ghost use Rattle.ts_core.specs.facts.Facts.{Text};

    ghost Value = { Text };

    ghost view = { λ f. string_bytes f.name };
}

impl<A: Allocator + Copy> FieldName<A> {
    /// Copies a name.
    pub fn new(alloc: A, name: &str) -> Result<FieldName<A>, AllocError>
        ensures { IfOk result (λ f. f ≡ name.now) }
    {
        Ok(FieldName {
            name: String::from_str(alloc, name)?,
        })
    }

    /// Returns the name.
    pub fn as_str(&self) -> &str
        ensures { result.now ≡ self.now }
    {
        self.name.as_str()
    }
}
