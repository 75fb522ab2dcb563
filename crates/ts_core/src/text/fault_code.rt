//! Table of the faults of all layers, with their numbers and a description for operators.
ghost use Rattle.std.specs.Prelude.{◌≡◌};
ghost use Rattle.ts_core.specs.text.FaultCodes.{code_number, code_message, all_codes, first_numbered, code_of_number};

use thiserror::Error;

/// A fault. Replies, scripts and pages refer to it by its number.
#[derive(Clone, Copy, Debug, PartialEq, Eq, Error)]
#[error("{}", self.message())]
pub enum FaultCode {
    /// Rule interval below a second or above 366 days (number 1).
    IntervalRange,
    /// Rule duration shorter than that of raw points (number 2).
    KeptTooShortly,
    /// Two rules with the same name (number 3).
    RepeatedRuleName,
    /// Rule name that isn't 1 to 32 characters from a to z, 0 to 9 and _ (number 4).
    BadRuleName,
    /// More than 32 rules (number 5).
    TooManyRules,
    /// Rule that keeps more than 16 tags, or a tag twice (number 6).
    BadKeptTags,
    /// Text without the form of settings (number 7).
    BadSettingsText,
    /// Name that no rule of the settings has (number 8).
    UnknownRule,
    /// Empty measurement (number 11).
    NoMeasurement,
    /// Tag that isn't a key, an equals sign and a value (number 12).
    BadTag,
    /// Tag key that occurs twice in a line (number 13).
    RepeatedTagKey,
    /// Line without a field (number 14).
    NoField,
    /// Field that isn't a key, an equals sign and a value (number 15).
    BadField,
    /// Field value that is a float, a string, a boolean or an unsigned integer (number 16).
    FieldType,
    /// Integer that doesn't fit 64 bits (number 17).
    IntegerRange,
    /// Timestamp that isn't a number (number 18).
    BadTimestamp,
    /// Timestamp that isn't a valid time (number 19).
    TimestampRange,
    /// Line or series key that is too long, or has too many tags or fields (number 20).
    OverLimit,
    /// Tag or field named `time` (number 21).
    ReservedKey,
    /// Coded block that ends within a number (number 31).
    BlockTooShort,
    /// Number of a coded block that isn't in its shortest form (number 32).
    BlockLongNumber,
    /// Invalid time in a coded block (number 33).
    BlockTimeRange,
    /// Bytes after the end of a coded block (number 34).
    BlockTooLong,
    /// New series while 1,000,000 are registered (number 41).
    TooManySeries,
    /// Line with a time below the raw mark (number 51).
    BelowRawMark,
    /// More than 2^62 accepted values (number 52).
    TooManyFacts,
    /// Retention run in progress (number 53).
    RunInProgress,
    /// File that isn't an image of a store (number 61).
    NotAnImage,
    /// Image of another version (number 62).
    ImageVersion,
    /// Image that is corrupt at this byte (number 63).
    BrokenImage,
    /// Image with parts that contradict each other (number 64).
    ContradictoryImage,
    /// Failure to read or write the image (number 65).
    ImageDevice,
    /// Image without an end within 2^32 reads (number 66).
    EndlessImage,
    /// Syntax error in a query (number 71).
    Syntax,
    /// InfluxQL that isn't supported (number 72).
    OutOfProfile,
    /// Query without a lower time bound (number 73).
    NoLowerBound,
    /// Number, duration or time out of range (number 74).
    OutOfRange,
    /// Two columns with the same name, or one named `time` (number 75).
    RepeatedColumn,
    /// More than 16 statements (number 76).
    TooManyStatements,
    /// Range with more than 10,000 buckets (number 77).
    TooManyBuckets,
    /// First bucket that starts before the least time (number 78).
    BucketBeforeLeastTime,
    /// Text that isn't a certificate (number 81).
    BadCertificate,
    /// Gap: the pieces don't follow one another from the start of the range to its end (number 82).
    Gap,
    /// Raw piece that starts below the raw mark (number 83).
    BelowMark,
    /// Unknown rule name (number 84).
    NoSuchRule,
    /// Rule of another measurement (number 85).
    OtherMeasurement,
    /// Piece with an end that isn't a bucket boundary of the rule (number 86).
    OffBoundary,
    /// Piece that starts below the rule's low index (number 87).
    BelowLow,
    /// Rule with buckets that don't fit the query's (number 88).
    Straddles,
    /// Rule that doesn't keep a tag that the query uses (number 89).
    TagNotKept,
    /// No plan: the query needs dropped points, and no cells fit it (number 91).
    NoPlan,
    /// More than 1,000,000 buckets of rules to search for a plan (number 92).
    TooManyRuleBuckets,
    /// Stale plan: the settings or marks have changed since it was checked (number 93).
    StalePlan,
    /// Certificate together with more than one statement (number 94).
    SeveralStatements,
    /// Line that isn't a command (number 95).
    UnknownCommand,
    /// Failure to read standard input (number 96).
    ReaderFailed,
    /// Failure to write standard output (number 97).
    WriterFailed,
    /// Standard input without an end within 2^32 reads (number 98).
    EndlessScript,
    /// Failure to read the request (number 101).
    ConnectionReaderFailed,
    /// Failure to write the reply (number 102).
    ConnectionWriterFailed,
}

/// All faults, ordered by number.
const ALL: [FaultCode; 60] = [
    FaultCode::IntervalRange,
    FaultCode::KeptTooShortly,
    FaultCode::RepeatedRuleName,
    FaultCode::BadRuleName,
    FaultCode::TooManyRules,
    FaultCode::BadKeptTags,
    FaultCode::BadSettingsText,
    FaultCode::UnknownRule,
    FaultCode::NoMeasurement,
    FaultCode::BadTag,
    FaultCode::RepeatedTagKey,
    FaultCode::NoField,
    FaultCode::BadField,
    FaultCode::FieldType,
    FaultCode::IntegerRange,
    FaultCode::BadTimestamp,
    FaultCode::TimestampRange,
    FaultCode::OverLimit,
    FaultCode::ReservedKey,
    FaultCode::BlockTooShort,
    FaultCode::BlockLongNumber,
    FaultCode::BlockTimeRange,
    FaultCode::BlockTooLong,
    FaultCode::TooManySeries,
    FaultCode::BelowRawMark,
    FaultCode::TooManyFacts,
    FaultCode::RunInProgress,
    FaultCode::NotAnImage,
    FaultCode::ImageVersion,
    FaultCode::BrokenImage,
    FaultCode::ContradictoryImage,
    FaultCode::ImageDevice,
    FaultCode::EndlessImage,
    FaultCode::Syntax,
    FaultCode::OutOfProfile,
    FaultCode::NoLowerBound,
    FaultCode::OutOfRange,
    FaultCode::RepeatedColumn,
    FaultCode::TooManyStatements,
    FaultCode::TooManyBuckets,
    FaultCode::BucketBeforeLeastTime,
    FaultCode::BadCertificate,
    FaultCode::Gap,
    FaultCode::BelowMark,
    FaultCode::NoSuchRule,
    FaultCode::OtherMeasurement,
    FaultCode::OffBoundary,
    FaultCode::BelowLow,
    FaultCode::Straddles,
    FaultCode::TagNotKept,
    FaultCode::NoPlan,
    FaultCode::TooManyRuleBuckets,
    FaultCode::StalePlan,
    FaultCode::SeveralStatements,
    FaultCode::UnknownCommand,
    FaultCode::ReaderFailed,
    FaultCode::WriterFailed,
    FaultCode::EndlessScript,
    FaultCode::ConnectionReaderFailed,
    FaultCode::ConnectionWriterFailed,
];

/// Returns the first fault of `codes` with this number.
fn first_numbered(number: u8, codes: &[FaultCode]) -> Option<FaultCode>
    ensures { result ≡ first_numbered number codes.now }
{
    let (code, others) = codes.split_first()?;
    if code.number() == number {
        Some(*code)
    } else {
        first_numbered(number, others)
    }
}

impl FaultCode {
    /// Returns all faults, ordered by number.
    pub fn all() -> &'static [FaultCode]
        ensures { result.now ≡ all_codes }
    {
        &ALL
    }

    /// Returns the fault with this number, if there is one.
    pub fn of_number(number: u8) -> Option<FaultCode>
        ensures { result ≡ code_of_number number }
    {
        first_numbered(number, &ALL)
    }

    /// Returns the number.
    pub fn number(self) -> u8
        ensures { result ≡ code_number self }
    {
        match self {
            FaultCode::IntervalRange => 1,
            FaultCode::KeptTooShortly => 2,
            FaultCode::RepeatedRuleName => 3,
            FaultCode::BadRuleName => 4,
            FaultCode::TooManyRules => 5,
            FaultCode::BadKeptTags => 6,
            FaultCode::BadSettingsText => 7,
            FaultCode::UnknownRule => 8,
            FaultCode::NoMeasurement => 11,
            FaultCode::BadTag => 12,
            FaultCode::RepeatedTagKey => 13,
            FaultCode::NoField => 14,
            FaultCode::BadField => 15,
            FaultCode::FieldType => 16,
            FaultCode::IntegerRange => 17,
            FaultCode::BadTimestamp => 18,
            FaultCode::TimestampRange => 19,
            FaultCode::OverLimit => 20,
            FaultCode::ReservedKey => 21,
            FaultCode::BlockTooShort => 31,
            FaultCode::BlockLongNumber => 32,
            FaultCode::BlockTimeRange => 33,
            FaultCode::BlockTooLong => 34,
            FaultCode::TooManySeries => 41,
            FaultCode::BelowRawMark => 51,
            FaultCode::TooManyFacts => 52,
            FaultCode::RunInProgress => 53,
            FaultCode::NotAnImage => 61,
            FaultCode::ImageVersion => 62,
            FaultCode::BrokenImage => 63,
            FaultCode::ContradictoryImage => 64,
            FaultCode::ImageDevice => 65,
            FaultCode::EndlessImage => 66,
            FaultCode::Syntax => 71,
            FaultCode::OutOfProfile => 72,
            FaultCode::NoLowerBound => 73,
            FaultCode::OutOfRange => 74,
            FaultCode::RepeatedColumn => 75,
            FaultCode::TooManyStatements => 76,
            FaultCode::TooManyBuckets => 77,
            FaultCode::BucketBeforeLeastTime => 78,
            FaultCode::BadCertificate => 81,
            FaultCode::Gap => 82,
            FaultCode::BelowMark => 83,
            FaultCode::NoSuchRule => 84,
            FaultCode::OtherMeasurement => 85,
            FaultCode::OffBoundary => 86,
            FaultCode::BelowLow => 87,
            FaultCode::Straddles => 88,
            FaultCode::TagNotKept => 89,
            FaultCode::NoPlan => 91,
            FaultCode::TooManyRuleBuckets => 92,
            FaultCode::StalePlan => 93,
            FaultCode::SeveralStatements => 94,
            FaultCode::UnknownCommand => 95,
            FaultCode::ReaderFailed => 96,
            FaultCode::WriterFailed => 97,
            FaultCode::EndlessScript => 98,
            FaultCode::ConnectionReaderFailed => 101,
            FaultCode::ConnectionWriterFailed => 102,
        }
    }

    /// Returns a description for operators.
    pub fn message(self) -> &'static str
        ensures { result.now ≡ code_message self }
    {
        match self {
            FaultCode::IntervalRange => "a rule's interval is below a second or above 366 days",
            FaultCode::KeptTooShortly => "a rule's duration is shorter than that of raw points",
            FaultCode::RepeatedRuleName => "two rules have the same name",
            FaultCode::BadRuleName =>
                "a rule's name isn't 1 to 32 characters from a to z, 0 to 9 and _",
            FaultCode::TooManyRules => "there are more than 32 rules",
            FaultCode::BadKeptTags => "a rule keeps more than 16 tags, or a tag twice",
            FaultCode::BadSettingsText => "the text doesn't have the form of settings",
            FaultCode::UnknownRule => "no rule of the settings has this name",
            FaultCode::NoMeasurement => "the measurement is empty",
            FaultCode::BadTag => "a tag isn't a key, an equals sign and a value",
            FaultCode::RepeatedTagKey => "a tag key occurs twice in the line",
            FaultCode::NoField => "the line has no field",
            FaultCode::BadField => "a field isn't a key, an equals sign and a value",
            FaultCode::FieldType =>
                "a field's value is a float, a string, a boolean or an unsigned integer",
            FaultCode::IntegerRange => "an integer doesn't fit 64 bits",
            FaultCode::BadTimestamp => "the timestamp isn't a number",
            FaultCode::TimestampRange => "the timestamp isn't a valid time",
            FaultCode::OverLimit =>
                "the line or its series key is too long, or it has too many tags or fields",
            FaultCode::ReservedKey => "a tag or a field is named time",
            FaultCode::BlockTooShort => "a coded block ends within a number",
            FaultCode::BlockLongNumber => "a number of a coded block isn't in its shortest form",
            FaultCode::BlockTimeRange => "a time of a coded block isn't valid",
            FaultCode::BlockTooLong => "bytes follow the end of a coded block",
            FaultCode::TooManySeries => "the series is new, and 1,000,000 are registered",
            FaultCode::BelowRawMark => "the line's time is below the raw mark",
            FaultCode::TooManyFacts => "more than 2^62 values would be accepted",
            FaultCode::RunInProgress => "a retention run is in progress",
            FaultCode::NotAnImage => "the file isn't an image of a store",
            FaultCode::ImageVersion => "the image is of another version",
            FaultCode::BrokenImage => "the image is corrupt at this byte",
            FaultCode::ContradictoryImage => "parts of the image contradict each other",
            FaultCode::ImageDevice => "the image could not be read or written",
            FaultCode::EndlessImage => "the image didn't end within 2^32 reads",
            FaultCode::Syntax => "a syntax error in a query",
            FaultCode::OutOfProfile => "this part of InfluxQL isn't supported",
            FaultCode::NoLowerBound => "the query has no lower time bound",
            FaultCode::OutOfRange => "a number, a duration or a time is out of range",
            FaultCode::RepeatedColumn => "two columns have the same name, or one is named time",
            FaultCode::TooManyStatements => "there are more than 16 statements",
            FaultCode::TooManyBuckets => "the range has more than 10,000 buckets",
            FaultCode::BucketBeforeLeastTime => "the first bucket starts before the least time",
            FaultCode::BadCertificate => "the text isn't a certificate",
            FaultCode::Gap =>
                "the pieces don't follow one another from the start of the range to its end",
            FaultCode::BelowMark => "a raw piece starts below the raw mark",
            FaultCode::NoSuchRule => "no rule has this name",
            FaultCode::OtherMeasurement => "the rule is of another measurement",
            FaultCode::OffBoundary => "an end of the piece isn't a boundary of the rule's buckets",
            FaultCode::BelowLow => "the piece starts below the rule's low index",
            FaultCode::Straddles => "the rule's buckets don't fit the query's",
            FaultCode::TagNotKept => "the rule doesn't keep a tag that the query names",
            FaultCode::NoPlan => "the query needs dropped points, and no cells fit it",
            FaultCode::TooManyRuleBuckets =>
                "more than 1,000,000 buckets of rules would have to be searched for a plan",
            FaultCode::StalePlan => "the settings or marks have changed since the plan was checked",
            FaultCode::SeveralStatements => "a certificate was given with more than one statement",
            FaultCode::UnknownCommand => "the line isn't a command",
            FaultCode::ReaderFailed => "standard input could not be read",
            FaultCode::WriterFailed => "standard output could not be written",
            FaultCode::EndlessScript => "standard input didn't end within 2^32 reads",
            FaultCode::ConnectionReaderFailed => "the request could not be read",
            FaultCode::ConnectionWriterFailed => "the reply could not be written",
        }
    }
}
