//! Parses certificates from text.
ghost use Rattle.std.specs.Prelude.{◌≡◌, ◌+◌, ◌<◌, ◌≤◌, List, ◌∷◌, ◌++◌, codes, length, IfOk, IfErr, IfSome, IfNone, option_map};
ghost use Rattle.ts_core.specs.plans.Pieces.{Piece as PieceValue};
ghost use Rattle.ts_check.specs.Certificates.{source_of};
ghost use Rattle.ts_check.specs.CertificateTexts.{EachHasSpelling, IsCertificate, IsFirstBadLine, IsReadingOf, IsReadAs, IsPlainSpelling};
ghost use Rattle.ts_check.specs.CertificateLines.{TakesSpelled, Lacks, IsNumber, IsRange, IsSource, IsPiece, HasPiece, Stops, IsReadingIfMemory};

use crate::certificate::{Certificate, Piece, PieceSource};
use crate::certificate_fault::{CertificateFault, ReadCertificateError};
use crate::rule_name::RuleName;
use itoa::Buffer;
use std::alloc::Allocator;

/// Splits a text at its first separator, an ASCII character.
fn cut(text: &str, separator: char) -> Option<(&str, &str)>
    requires { separator < 128 }
    ensures found { IfSome result (λ x. text.now ≡ x.0.now ++ (separator ∷ x.1.now)) }
    ensures first { IfSome result (λ x. Lacks separator x.0.now) }
    ensures none { IfNone result (Lacks separator text.now) }
{
    text.split_once(separator)
}

/// Parses a number in canonical decimal.
fn number(text: &str) -> Option<i64>
    ensures { TakesSpelled (IsNumber text.now) result }
{
    let number = match text.parse::<i64>() {
        Ok(number) => number,
        Err(_) => return None,
    };
    if Buffer::new().format(number) == text {
        Some(number)
    } else {
        None
    }
}

/// Parses two numbers separated by a space.
fn range(text: &str) -> Option<(i64, i64)>
    ensures { TakesSpelled (IsRange text.now) result }
{
    let (from, to) = cut(text, ' ')?;
    Some((number(from)?, number(to)?))
}

/// Parses the source at the start of a line; returns it and the text after the following space.
fn source(line: &str) -> Option<(PieceSource, &str)>
    ensures { TakesSpelled (IsSource line.now) (option_map (λ x. (source_of x.0, x.1.now)) result) }
{
    let (word, rest) = cut(line, ' ')?;
    match word {
        "raw" => Some((PieceSource::Raw, rest)),
        "rollup" => {
            let (name, rest) = cut(rest, ' ')?;
            match RuleName::new(name) {
                Some(name) => Some((PieceSource::Rollup(name), rest)),
                None => None,
            }
        }
        _ => None,
    }
}

/// Parses a line, without its line feed, as a piece.
fn piece(line: &str) -> Option<Piece>
    ensures { TakesSpelled (IsPiece line.now) result }
{
    let Some((source, rest)) = source(line) else {
        return None;
    };
    let (from, to) = range(rest)?;
    Some(Piece { source, from, to })
}

/// Returns the text after the first line, `plan 1`.
fn after_first(text: &str) -> Option<&str>
    ensures found { IfSome result (λ rest. text.now ≡ codes "plan 1\n" ++ rest.now) }
    ensures none { IfNone result (IsFirstBadLine text.now 0) }
{
    let (line, rest) = cut(text, '\n')?;
    if line == "plan 1" { Some(rest) } else { None }
}

/// Parses the next line. Returns `Ok(Some((piece, rest)))`, `Ok(None)` at the final `end`, or `Err(rest)` from the
/// malformed part on.
fn next<'a>(rest: &'a str) -> Result<Option<(Piece, &'a str)>, &'a str>
    ensures piece { IfOk result (λ next. IfSome next (λ x. HasPiece rest.now x.0 x.1.now)) }
    ensures last { IfOk result (λ next. IfNone next (rest.now ≡ codes "end\n")) }
    ensures fault { IfErr result (λ at. Stops rest.now at.now) }
{
    let Some((line, after)) = cut(rest, '\n') else {
        return Err(rest);
    };
    if line == "end" {
        return if after.is_empty() {
            Ok(None)
        } else {
            Err(after)
        };
    }
    match piece(line) {
        Some(piece) => Ok(Some((piece, after))),
        None => Err(rest),
    }
}

/// Returns the error at the offset of `rest`, which is a suffix of the text.
fn fault_at(text: &str, rest: &str) -> CertificateFault
    requires { length rest.now ≤ length text.now }
    ensures { result.at + length rest.now ≡ length text.now }
{
    CertificateFault {
        at: text.len() - rest.len(),
    }
}

/// Checks that a text is a certificate. Does not allocate.
fn checked(text: &str) -> Result<(), CertificateFault>
    ensures ok { IfOk result (λ _. (ps : List PieceValue) × IsCertificate text.now ps) }
    ensures err { IfErr result (λ fault. IsFirstBadLine text.now fault.at) }
{
    let mut rest = match after_first(text) {
        Some(rest) => rest,
        None => return Err(CertificateFault { at: 0 }),
    };
    'lines: loop {
        match next(rest) {
            Ok(Some((_, after))) => rest = after,
            Ok(None) => return Ok(()),
            Err(at) => return Err(fault_at(text, at)),
        }
    }
}

/// Parses a certificate in one pass. May run out of memory before it finds an error.
fn read_lines<A: Allocator + Copy>(
    alloc: A,
    text: &str,
) -> Result<Certificate<A>, ReadCertificateError>
    ensures { IsReadingIfMemory text.now result }
{
    let mut pieces = Vec::new(alloc);
    let mut rest = match after_first(text) {
        Some(rest) => rest,
        None => return Err(ReadCertificateError::Fault(CertificateFault { at: 0 })),
    };
    'lines: loop {
        match next(rest) {
            Ok(Some((piece, after))) => {
                pieces.push(piece)?;
                rest = after;
            }
            Ok(None) => return Ok(Certificate::new(pieces)),
            Err(at) => return Err(ReadCertificateError::Fault(fault_at(text, at))),
        }
    }
}

/// Parses a certificate. An error in the text is found before anything is allocated.
/// (In a script, `;` is written for a line feed. The text passed here has line feeds, and offsets are the same.)
pub fn read_certificate<A: Allocator + Copy>(
    alloc: A,
    text: &str,
) -> Result<Certificate<A>, ReadCertificateError>
    // the result spells the text, or is its first error
    ensures value { IsReadingOf text.now result }

    // every spelling of pieces is read as these pieces
    ensures only { (ps : List PieceValue) → IsCertificate text.now ps → IsReadAs ps result }

    // the result can be written again as the same text
    ensures spelled { IfOk result EachHasSpelling }

    // no certificate is a prefix of another one, and each has one reading;
    // a number in decimal doesn't begin with 0, unless it is 0
    ensures spelling { IsPlainSpelling }
{
    checked(text)?;
    read_lines(alloc, text)
}
