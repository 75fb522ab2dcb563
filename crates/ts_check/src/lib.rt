//! Checks plans: decides whether the pieces of a certificate cover all points that a query asks for, under a store's
//! settings and marks. Depends on ts_core and ts_ql.
//!
//! Proved: `check` accepts exactly the valid plans, and else returns the first error with its piece. Nothing else
//! creates a `Checked`. Certificates are read from text and written to text, and both directions agree.
//!
//! ```text
//! let certificate = read_certificate(alloc, "plan 1\nraw 0 60000000000\nend\n")?;
//!     // or BadCertificate with its byte offset
//! let checked = check(alloc, &settings, &marks, &query, &certificate)?;
//!     // or the first error, such as BelowMark at piece 0
//! ```
//!
//! To add a condition on pieces: touch valid.rt (in order of precedence), ts_core's specs/plans/Pieces.antt and
//! Faults.antt, and a `FaultCode`. To change the text of a certificate: read.rt, write.rt and
//! specs/CertificateTexts.antt.
#![tactic(auto)]

mod certificate;
mod certificate_fault;
mod checked;
mod coverage;
mod fault;
mod query_context;
mod read;
mod rule_name;
mod valid;
mod write;

pub use certificate::{Certificate, Piece, PieceSource};
pub use certificate_fault::{CertificateFault, ReadCertificateError};
pub use checked::{Checked, check};
pub use coverage::{is_aligned, is_in_one_bucket, keeps_tags};
pub use fault::{CheckError, CheckFault};
pub use query_context::{MarkedRule, QueryContext};
pub use read::read_certificate;
pub use rule_name::RuleName;
pub use write::write_certificate;
