//! A fact: a value of one field of a series at one time, with owned texts.
ghost use Rattle.std.specs.Prelude.{◌≡◌};

use crate::facts::{FieldName, Key, Time};
use std::alloc::Allocator;
use std::marker::Model;

/// A value of one field of a series, at one time. The store keeps points in columns, so it makes none: this type says
/// in a program what definitions call a fact.
#[derive(Drop)]
pub struct Fact<A: Allocator> {
    key: Key<A>,
    field: FieldName<A>,
    time: Time,
    value: i64,
}

impl<A: Allocator> Model for Fact<A> {
    ghost use Rattle.ts_core.specs.facts.Facts.{Fact as FactValue};

    ghost Value = { FactValue };

    ghost view = { λ f. record { column = record { series = f.key; field = f.field }; time = f.time; value = f.value } };
}

impl<A: Allocator + Copy> Fact<A> {
    /// Creates a fact.
    pub fn new(key: Key<A>, field: FieldName<A>, time: Time, value: i64) -> Fact<A>
        ensures { result ≡ record { column = record { series = key; field = field }; time = time; value = value } }
    {
        Fact {
            key,
            field,
            time,
            value,
        }
    }

    /// Returns the key of the series.
    pub fn key(&self) -> &Key<A>
        ensures { result.now ≡ self.now.column.series }
    {
        &self.key
    }

    /// Returns the name of the field.
    pub fn field(&self) -> &FieldName<A>
        ensures { result.now ≡ self.now.column.field }
    {
        &self.field
    }

    /// Returns the time.
    pub fn time(&self) -> Time
        ensures { result ≡ self.now.time }
    {
        self.time
    }

    /// Returns the value.
    pub fn value(&self) -> i64
        ensures { result ≡ self.now.value }
    {
        self.value
    }
}
