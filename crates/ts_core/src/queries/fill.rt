//! Fill option of a query.

/// Value of a bucket without data. (InfluxData 1.8: GROUP BY time intervals and fill().)
#[derive(Clone, Copy, Debug, PartialEq, Eq)]
pub enum Fill {
    /// Null, or 0 for `Count`.
    Null,
    /// No row.
    None,
    /// Value of the nearest earlier bucket with data, or null if there is none.
    Previous,
    /// This number.
    Number(i64),
}
