//! Hash table of fields, by the name of their measurement and their own.
ghost use Rattle.std.specs.Prelude.{◌≡◌, ◌<◌, ◌↔◌, [], length, IfSome, IfNone, IfOk, IsTrue};
ghost use Rattle.ts_core.specs.lists.Members.{Among, AllDistinct};
ghost use Rattle.ts_raw.specs.FieldKeys.{field_key};
ghost use Rattle.ts_raw.specs.Registering.{IsRegistered};
ghost use Rattle.ts_core.specs.lists.Numbered.{IsAt};

use crate::index::hash::hash_field;
use std::alloc::{AllocError, Allocator};
use std::hash::RandomState;
use std::marker::Model;
use ts_core::{Chains, FieldName, next_id};

/// A field of a measurement.
#[derive(Drop)]
pub(crate) struct FieldKey<A: Allocator> {
    measurement: String<A>,
    field: FieldName<A>,
}

impl<A: Allocator> Model for FieldKey<A> {
    ghost use Rattle.std.specs.Prelude.{string_bytes};
    ghost use Rattle.ts_raw.specs.FieldKeys.{FieldKey as FieldKeyValue, field_key};

    ghost Value = { FieldKeyValue };

    ghost view = { λ k. field_key (string_bytes k.measurement) k.field };
}

impl<A: Allocator + Copy> FieldKey<A> {
    fn new(alloc: A, measurement: &str, field: &str) -> Result<FieldKey<A>, AllocError>
        ensures { IfOk result (λ k. k ≡ field_key measurement.now field.now) }
    {
        Ok(FieldKey {
            measurement: String::from_str(alloc, measurement)?,
            field: FieldName::new(alloc, field)?,
        })
    }

    /// Returns the name of the field.
    pub(crate) fn field(&self) -> &FieldName<A>
        ensures { result.now ≡ self.now.field }
    {
        &self.field
    }

    fn matches(&self, measurement: &str, field: &str) -> bool
        ensures { IsTrue result ↔ (self.now ≡ field_key measurement.now field.now) }
    {
        self.field.as_str() == field && self.measurement.as_str() == measurement
    }
}

/// Hash table of the fields of measurements. Its model is their list, in creation order.
#[derive(Drop)]
pub(crate) struct FieldTable<A: Allocator> {
    keys: Vec<FieldKey<A>, A>,
    chains: Chains<A>,
    seed: RandomState,
}

impl<A: Allocator> Model for FieldTable<A> {
    ghost use Rattle.std.specs.Prelude.{List};
    ghost use Rattle.ts_raw.specs.FieldKeys.{FieldKey as FieldKeyValue, hash_of_field};
    ghost use Rattle.ts_core.specs.lists.Tables.{IsTable};

    ghost Value = { List FieldKeyValue };

    ghost view = { λ t. t.keys.items };

    ghost invariant = { λ t. IsTable (hash_of_field t.seed) t.keys.items t.chains };
}

impl<A: Allocator + Copy> FieldTable<A> {
    /// Creates an empty table, with a seed of the hashes.
    pub(crate) fn new(alloc: A, seed: RandomState) -> FieldTable<A>
        ensures { result ≡ [] }
    {
        FieldTable {
            keys: Vec::new(alloc),
            chains: Chains::new(alloc),
            seed,
        }
    }

    /// Returns the number of fields.
    pub(crate) fn len(&self) -> usize
        ensures value { result ≡ length self.now }
        ensures once { AllDistinct self.now }
    {
        self.keys.len()
    }

    /// Returns the field with this index.
    pub(crate) fn key(&self, number: u32) -> &FieldKey<A>
        requires { number < length self.now }
        ensures { IsAt self.now number result.now }
    {
        &self.keys[number as usize]
    }

    /// Looks up a field of a measurement; returns its index.
    pub(crate) fn lookup(&self, measurement: &str, field: &str) -> Option<u32>
        ensures found { IfSome result (λ n. IsAt self.now n (field_key measurement.now field.now)) }
        ensures absent { IfNone result (Among (field_key measurement.now field.now) self.now → ⊥) }
    {
        let hash = hash_field(&self.seed, measurement, field);
        self.chains.find(
            hash,
            |at| self.keys[at as usize].matches(measurement, field),
        )
    }

    /// Returns the index of a field of a measurement, creating the field if needed.
    pub(crate) fn register(&mut self, measurement: &str, field: &str) -> Result<u32, AllocError>
        ensures registered { IsRegistered self.old self.new result (field_key measurement.now field.now) }
        ensures once { AllDistinct self.new }
    {
        if let Some(number) = self.lookup(measurement, field) {
            return Ok(number);
        }
        let number = next_id(self.keys.len())?;
        let key = FieldKey::new(*self.keys.allocator(), measurement, field)?;
        self.keys.reserve(1)?;
        self.chains
            .push(hash_field(&self.seed, measurement, field))?;
        self.keys.push(key).unwrap();
        Ok(number)
    }
}
