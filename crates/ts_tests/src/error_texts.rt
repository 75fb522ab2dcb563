//! The `Display` and `Debug` texts of the errors of all libraries. Each message of a variant has a row. Of the types
//! whose message is that of their code, which is proved, two values have one.

use crate::stores::{ONE_RULE, store_of};
use std::alloc::{AllocError, Global};
use std::error::Error;
use ts_block::BlockFault;
use ts_check::{CertificateFault, CheckError, CheckFault, ReadCertificateError};
use ts_core::{FaultCode, PieceFault, RuleFault, SettingsError, SettingsFault, Time, UnknownRule};
use ts_exec::ExecFault;
use ts_http::IoFault;
use ts_image::{LoadFault, SaveFault};
use ts_line::{LineFault, LineFaultKind, ReadLineError};
use ts_plan::{PlanError, PlanFault};
use ts_ql::{ParseError, QlFault, QlFaultKind};
use ts_raw::IndexFault;
use ts_script::RunFault;
use ts_store::{RunInProgress, Store, View, WriteFault};

/// An error with its `Display` and its `Debug` text.
type Row<E> = (E, &'static str, &'static str);

/// The first and the last code.
const CODES: [Row<FaultCode>; 2] = [
    (
        FaultCode::IntervalRange,
        "a rule's interval is below a second or above 366 days",
        "IntervalRange",
    ),
    (
        FaultCode::ConnectionWriterFailed,
        "the reply could not be written",
        "ConnectionWriterFailed",
    ),
];

/// Two faults of a rule.
const RULES: [Row<RuleFault>; 2] = [
    (
        RuleFault::Duration,
        "a rule's duration is shorter than that of raw points",
        "Duration",
    ),
    (
        RuleFault::BadName,
        "a rule's name isn't 1 to 32 characters from a to z, 0 to 9 and _",
        "BadName",
    ),
];

/// Each fault of settings.
const SETTINGS: [Row<SettingsFault>; 3] = [
    (
        SettingsFault::Form,
        "the text doesn't have the form of settings",
        "Form",
    ),
    (
        SettingsFault::TooManyRules,
        "there are more than 32 rules",
        "TooManyRules",
    ),
    (
        SettingsFault::OfRule(RuleFault::RepeatedName, 31),
        "two rules have the same name, at rule 31",
        "OfRule(RepeatedName, 31)",
    ),
];

/// Each error of reading settings.
const SETTINGS_ERRORS: [Row<SettingsError>; 2] = [
    (
        SettingsError::Fault(SettingsFault::OfRule(RuleFault::KeptTags, 0)),
        "a rule keeps more than 16 tags, or a tag twice, at rule 0",
        "Fault(OfRule(KeptTags, 0))",
    ),
    (SettingsError::OutOfMemory, "out of memory", "OutOfMemory"),
];

/// The error of dropping a rule.
const UNKNOWN_RULES: [Row<UnknownRule>; 1] = [(
    UnknownRule,
    "no rule of the settings has this name",
    "UnknownRule",
)];

/// Faults in a line, at the first byte and at the greatest offset.
const LINES: [Row<LineFault>; 2] = [
    (
        LineFault {
            kind: LineFaultKind::NoMeasurement,
            at: 0,
        },
        "the measurement is empty, at byte 0",
        "LineFault { kind: NoMeasurement, at: 0 }",
    ),
    (
        LineFault {
            kind: LineFaultKind::BadTimestamp,
            at: usize::MAX,
        },
        "the timestamp isn't a number, at byte 18446744073709551615",
        "LineFault { kind: BadTimestamp, at: 18446744073709551615 }",
    ),
];

/// Each error of reading a line.
const LINE_ERRORS: [Row<ReadLineError>; 2] = [
    (
        ReadLineError::Fault(LineFault {
            kind: LineFaultKind::NoField,
            at: 7,
        }),
        "the line has no field, at byte 7",
        "Fault(LineFault { kind: NoField, at: 7 })",
    ),
    (ReadLineError::OutOfMemory, "out of memory", "OutOfMemory"),
];

/// The first and the last fault of a block.
const BLOCKS: [Row<BlockFault>; 2] = [
    (
        BlockFault::Short,
        "a coded block ends within a number",
        "Short",
    ),
    (
        BlockFault::LeftOver,
        "bytes follow the end of a coded block",
        "LeftOver",
    ),
];

/// Each fault of an index.
const INDEXES: [Row<IndexFault>; 2] = [
    (
        IndexFault::TooManySeries,
        "the series is new, and 1,000,000 are registered",
        "TooManySeries",
    ),
    (IndexFault::OutOfMemory, "out of memory", "OutOfMemory"),
];

/// Each fault of a write but the one with a time.
const WRITES: [Row<WriteFault>; 3] = [
    (
        WriteFault::TooManySeries,
        "the series is new, and 1,000,000 are registered",
        "TooManySeries",
    ),
    (
        WriteFault::TooManyFacts,
        "more than 2^62 values would be accepted",
        "TooManyFacts",
    ),
    (WriteFault::OutOfMemory, "out of memory", "OutOfMemory"),
];

/// The texts of the fault of a write below the least time.
const BELOW: (&str, &str) = (
    "the line's time is below the raw mark: -9223372036854775806",
    "BelowRawMark(Time { nanos: -9223372036854775806 })",
);

/// The error of beginning a run.
const RUNS: [Row<RunInProgress>; 1] = [(
    RunInProgress,
    "a retention run is in progress",
    "RunInProgress",
)];

/// Each kind of fault in a query, with two texts that aren't supported: a quoted one, and one beyond ASCII.
const QUERY_KINDS: [Row<QlFaultKind<'static>>; 9] = [
    (QlFaultKind::Syntax, "a syntax error in a query", "Syntax"),
    (
        QlFaultKind::OutOfProfile(r#""it's\n""#),
        r#"this part of InfluxQL isn't supported: "it's\n""#,
        r#"OutOfProfile("\"it's\\n\"")"#,
    ),
    (
        QlFaultKind::OutOfProfile("é\n"),
        "this part of InfluxQL isn't supported: é\n",
        r#"OutOfProfile("é\n")"#,
    ),
    (
        QlFaultKind::NoLowerBound,
        "the query has no lower time bound",
        "NoLowerBound",
    ),
    (
        QlFaultKind::OutOfRange,
        "a number, a duration or a time is out of range",
        "OutOfRange",
    ),
    (
        QlFaultKind::RepeatedColumn,
        "two columns have the same name, or one is named time",
        "RepeatedColumn",
    ),
    (
        QlFaultKind::TooManyStatements,
        "there are more than 16 statements",
        "TooManyStatements",
    ),
    (
        QlFaultKind::TooManyBuckets,
        "the range has more than 10,000 buckets",
        "TooManyBuckets",
    ),
    (
        QlFaultKind::BucketBeforeLeastTime,
        "the first bucket starts before the least time",
        "BucketBeforeLeastTime",
    ),
];

/// Faults in a query, at the first byte and after the last.
const QUERIES: [Row<QlFault<'static>>; 2] = [
    (
        QlFault {
            kind: QlFaultKind::OutOfProfile("DROP"),
            at: 0,
        },
        "this part of InfluxQL isn't supported: DROP, at byte 0",
        r#"QlFault { kind: OutOfProfile("DROP"), at: 0 }"#,
    ),
    (
        QlFault {
            kind: QlFaultKind::Syntax,
            at: 65_536,
        },
        "a syntax error in a query, at byte 65536",
        "QlFault { kind: Syntax, at: 65536 }",
    ),
];

/// Each error of parsing a query.
const QUERY_ERRORS: [Row<ParseError<'static>>; 2] = [
    (ParseError::OutOfMemory, "out of memory", "OutOfMemory"),
    (
        ParseError::Fault(QlFault {
            kind: QlFaultKind::NoLowerBound,
            at: 12,
        }),
        "the query has no lower time bound, at byte 12",
        "Fault(QlFault { kind: NoLowerBound, at: 12 })",
    ),
];

/// Two faults of a list of pieces.
const PIECES: [Row<PieceFault>; 2] = [
    (
        PieceFault::Gap,
        "the pieces don't follow one another from the start of the range to its end",
        "Gap",
    ),
    (
        PieceFault::TagNotKept,
        "the rule doesn't keep a tag that the query names",
        "TagNotKept",
    ),
];

/// Faults of a plan, at the first and at the greatest index.
const CHECKS: [Row<CheckFault>; 2] = [
    (
        CheckFault {
            kind: PieceFault::BelowLow,
            piece: 0,
        },
        "the piece starts below the rule's low index, at piece 0",
        "CheckFault { kind: BelowLow, piece: 0 }",
    ),
    (
        CheckFault {
            kind: PieceFault::NoSuchRule,
            piece: usize::MAX,
        },
        "no rule has this name, at piece 18446744073709551615",
        "CheckFault { kind: NoSuchRule, piece: 18446744073709551615 }",
    ),
];

/// Each error of a check.
const CHECK_ERRORS: [Row<CheckError>; 2] = [
    (
        CheckError::Fault(CheckFault {
            kind: PieceFault::Straddles,
            piece: 2,
        }),
        "the rule's buckets don't fit the query's, at piece 2",
        "Fault(CheckFault { kind: Straddles, piece: 2 })",
    ),
    (CheckError::OutOfMemory, "out of memory", "OutOfMemory"),
];

/// The fault of a certificate.
const CERTIFICATES: [Row<CertificateFault>; 1] = [(
    CertificateFault { at: 40 },
    "the text isn't a certificate, at byte 40",
    "CertificateFault { at: 40 }",
)];

/// Each error of reading a certificate.
const CERTIFICATE_ERRORS: [Row<ReadCertificateError>; 2] = [
    (
        ReadCertificateError::Fault(CertificateFault { at: 0 }),
        "the text isn't a certificate, at byte 0",
        "Fault(CertificateFault { at: 0 })",
    ),
    (
        ReadCertificateError::OutOfMemory,
        "out of memory",
        "OutOfMemory",
    ),
];

/// The reason why a query has no plan.
const PLANS: [Row<PlanFault>; 1] = [(
    PlanFault::NoPlan,
    "the query needs dropped points, and no cells fit it",
    "NoPlan",
)];

/// Each error of planning.
const PLAN_ERRORS: [Row<PlanError>; 2] = [
    (
        PlanError::Fault(PlanFault::TooManyBuckets),
        "more than 1,000,000 buckets of rules would have to be searched for a plan",
        "Fault(TooManyBuckets)",
    ),
    (PlanError::OutOfMemory, "out of memory", "OutOfMemory"),
];

/// The `Display` texts of each error of an execution.
const EXECUTIONS: (&str, &str) = (
    "the settings or marks have changed since the plan was checked",
    "out of memory",
);

/// Each fault of loading an image.
const LOADS: [Row<LoadFault>; 7] = [
    (
        LoadFault::NotAnImage,
        "the file isn't an image of a store",
        "NotAnImage",
    ),
    (
        LoadFault::OtherVersion,
        "the image is of another version",
        "OtherVersion",
    ),
    (
        LoadFault::Misshapen(u64::MAX),
        "the image is corrupt at this byte, at byte 18446744073709551615",
        "Misshapen(18446744073709551615)",
    ),
    (
        LoadFault::Contradiction,
        "parts of the image contradict each other",
        "Contradiction",
    ),
    (
        LoadFault::Device,
        "the image could not be read or written",
        "Device",
    ),
    (
        LoadFault::TooManyReads,
        "the image didn't end within 2^32 reads",
        "TooManyReads",
    ),
    (LoadFault::OutOfMemory, "out of memory", "OutOfMemory"),
];

/// Each fault of saving an image.
const SAVES: [Row<SaveFault>; 2] = [
    (
        SaveFault::Device,
        "the image could not be read or written",
        "Device",
    ),
    (SaveFault::OutOfMemory, "out of memory", "OutOfMemory"),
];

/// Each fault that stops a script.
const SCRIPTS: [Row<RunFault>; 4] = [
    (RunFault::OutOfMemory, "out of memory", "OutOfMemory"),
    (
        RunFault::Reader,
        "standard input could not be read",
        "Reader",
    ),
    (
        RunFault::Writer,
        "standard output could not be written",
        "Writer",
    ),
    (
        RunFault::TooManyReads,
        "standard input didn't end within 2^32 reads",
        "TooManyReads",
    ),
];

/// Each fault of a connection.
const CONNECTIONS: [Row<IoFault>; 2] = [
    (IoFault::Reader, "the request could not be read", "Reader"),
    (IoFault::Writer, "the reply could not be written", "Writer"),
];

/// Returns true if a format string gives this text.
fn is_text(found: Result<String, AllocError>, text: &str) -> bool {
    match found {
        Ok(found) => found.as_str() == text,
        Err(_) => false,
    }
}

/// Returns true if an error has the texts of its row.
fn has_texts<E: Error>(alloc: Global, row: &Row<E>) -> bool {
    is_text(format!(in alloc; "{}", row.0), row.1)
        && is_text(format!(in alloc; "{:?}", row.0), row.2)
}

/// Returns the index of the first error that has other texts than its row.
fn first_wrong<E: Error>(alloc: Global, rows: &[Row<E>]) -> Option<usize> {
    for (at, row) in rows.iter().enumerate() {
        if !has_texts(alloc, row) {
            return Some(at);
        }
    }
    None
}

/// Shows the texts of codes, and of the errors of settings and of rules.
#[test]
fn errors_of_settings_have_texts(rt: HostRuntime) {
    assert_eq!(rt; first_wrong(rt.alloc(), &CODES), None);
    assert_eq!(rt; first_wrong(rt.alloc(), &RULES), None);
    assert_eq!(rt; first_wrong(rt.alloc(), &SETTINGS), None);
    assert_eq!(rt; first_wrong(rt.alloc(), &SETTINGS_ERRORS), None);
    assert_eq!(rt; first_wrong(rt.alloc(), &UNKNOWN_RULES), None);
}

/// Shows the texts of the errors of a line.
#[test]
fn errors_of_lines_have_texts(rt: HostRuntime) {
    assert_eq!(rt; first_wrong(rt.alloc(), &LINES), None);
    assert_eq!(rt; first_wrong(rt.alloc(), &LINE_ERRORS), None);
}

/// Returns true if a write below this mark has its texts.
fn is_below(alloc: Global, mark: Time) -> bool {
    has_texts(alloc, &(WriteFault::BelowRawMark(mark), BELOW.0, BELOW.1))
}

/// Shows the texts of the errors of blocks, of an index, of writes and of the begin of a run.
#[test]
fn errors_of_points_have_texts(rt: HostRuntime) {
    assert!(rt; is_below(rt.alloc(), Time::least()));
    assert_eq!(rt; first_wrong(rt.alloc(), &BLOCKS), None);
    assert_eq!(rt; first_wrong(rt.alloc(), &INDEXES), None);
    assert_eq!(rt; first_wrong(rt.alloc(), &WRITES), None);
    assert_eq!(rt; first_wrong(rt.alloc(), &RUNS), None);
}

/// Shows the texts of the errors of a query.
#[test]
fn errors_of_queries_have_texts(rt: HostRuntime) {
    assert_eq!(rt; first_wrong(rt.alloc(), &QUERY_KINDS), None);
    assert_eq!(rt; first_wrong(rt.alloc(), &QUERIES), None);
    assert_eq!(rt; first_wrong(rt.alloc(), &QUERY_ERRORS), None);
}

/// Shows the texts of the errors of pieces, checks, certificates and plans.
#[test]
fn errors_of_plans_have_texts(rt: HostRuntime) {
    assert_eq!(rt; first_wrong(rt.alloc(), &PIECES), None);
    assert_eq!(rt; first_wrong(rt.alloc(), &CHECKS), None);
    assert_eq!(rt; first_wrong(rt.alloc(), &CHECK_ERRORS), None);
    assert_eq!(rt; first_wrong(rt.alloc(), &CERTIFICATES), None);
    assert_eq!(rt; first_wrong(rt.alloc(), &CERTIFICATE_ERRORS), None);
    assert_eq!(rt; first_wrong(rt.alloc(), &PLANS), None);
    assert_eq!(rt; first_wrong(rt.alloc(), &PLAN_ERRORS), None);
}

/// Returns true if the error of an execution is displayed so.
fn is_displayed(alloc: Global, error: &ExecFault<'_, Global>, text: &str) -> bool {
    is_text(format!(in alloc; "{error}"), text)
}

/// Returns true if the error of a stale plan over a store is displayed so.
fn stale_is_displayed(alloc: Global, store: &Store<Global>, text: &str) -> bool {
    let stale = ExecFault::Stale(store.settings(), store.marks());
    is_displayed(alloc, &stale, text)
}

/// Returns true if the errors of an execution have these `Display` texts: that of a stale plan, and that of the other.
fn executions_are_displayed(alloc: Global, stale: &str, full: &str) -> bool {
    match store_of(alloc, alloc, ONE_RULE) {
        Some(store) => {
            stale_is_displayed(alloc, &store, stale)
                && is_displayed(alloc, &ExecFault::OutOfMemory, full)
        }
        None => false,
    }
}

/// Shows the `Display` texts of the errors of an execution.
#[test]
fn errors_of_executions_are_displayed(rt: HostRuntime) {
    let (stale, full) = EXECUTIONS;
    assert!(rt; executions_are_displayed(rt.alloc(), stale, full));
}

/// Shows the texts of the errors of images, scripts and connections.
#[test]
fn errors_of_devices_have_texts(rt: HostRuntime) {
    assert_eq!(rt; first_wrong(rt.alloc(), &LOADS), None);
    assert_eq!(rt; first_wrong(rt.alloc(), &SAVES), None);
    assert_eq!(rt; first_wrong(rt.alloc(), &SCRIPTS), None);
    assert_eq!(rt; first_wrong(rt.alloc(), &CONNECTIONS), None);
}
