//! Values of InfluxQL functions of aggregates.
ghost use Rattle.std.specs.Prelude.{◌≡◌};
ghost use Rattle.std.specs.Option.{option_map_or};
ghost use Rattle.ts_core.specs.queries.Fills.{value_of, number_value};

use crate::aggregates::{Agg, Frac, Partial, mean};

/// Function of a column. (InfluxData 1.8: InfluxQL functions.)
#[derive(Clone, Copy, Debug, PartialEq, Eq)]
pub enum Function {
    /// Number of values.
    Count,
    /// Sum of the values.
    Sum,
    /// Least value.
    Min,
    /// Greatest value.
    Max,
    /// Value at the earliest time.
    First,
    /// Value at the latest time.
    Last,
    /// Arithmetic mean.
    Mean,
}

/// Value of a column in a row.
#[derive(Clone, Copy, Debug, PartialEq, Eq)]
pub enum Value {
    /// No data.
    Null,
    /// Integer.
    Number(i128),
    /// Mean.
    Fraction(Frac),
}

fn sum_of(aggregate: &Agg) -> Value
    ensures { result ≡ value_of aggregate.now Function.Sum }
{
    if aggregate.count() == 0 {
        Value::Null
    } else {
        Value::Number(aggregate.sum())
    }
}

fn mean_of(aggregate: &Agg) -> Value
    ensures { result ≡ value_of aggregate.now Function.Mean }
{
    match mean(aggregate) {
        None => Value::Null,
        Some(ratio) => Value::Fraction(ratio),
    }
}

fn number_or_null(number: Option<i64>) -> Value
    ensures { result ≡ option_map_or Value.Number number Value.Null }
{
    match number {
        None => Value::Null,
        Some(number) => Value::Number(i128::from(number)),
    }
}

impl Function {
    /// Returns the value of the function. Without data it is null, or 0 for `Count`.
    pub fn value_of(self, aggregate: &Agg) -> Value
        ensures { result ≡ value_of aggregate.now self }
    {
        match self {
            Function::Count => Value::Number(i128::from(aggregate.count())),
            Function::Sum => sum_of(aggregate),
            Function::Min => number_or_null(aggregate.min()),
            Function::Max => number_or_null(aggregate.max()),
            Function::First => number_or_null(aggregate.first().map(|point| point.1)),
            Function::Last => number_or_null(aggregate.last().map(|point| point.1)),
            Function::Mean => mean_of(aggregate),
        }
    }

    /// Returns the value of a fill number: the number itself, or for `Mean` the number as a fraction.
    pub fn number_value(self, number: i64) -> Value
        ensures { result ≡ number_value number self }
    {
        match self {
            Function::Mean => Value::Fraction(Frac {
                numerator: i128::from(number),
                denominator: 1,
            }),
            _ => Value::Number(i128::from(number)),
        }
    }
}
