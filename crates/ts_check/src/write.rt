//! Writes certificates as text that `read_certificate` reads.
ghost use Rattle.std.specs.Prelude.{◌≡◌, ◌++◌, codes, IfOk, OnOk, string_bytes};
ghost use Rattle.std.specs.Fmt.{signed_decimal};
ghost use Rattle.ts_check.specs.Certificates.{source_of};
ghost use Rattle.ts_check.specs.CertificateTexts.{source_text, piece_text, certificate_text, IsCertificate};

use crate::certificate::{Certificate, Piece, PieceSource};
use itoa::Buffer;
use std::alloc::{AllocError, Allocator};

fn push_source<A: Allocator>(text: &mut String<A>, source: &PieceSource) -> Result<(), AllocError>
    ensures { OnOk result (string_bytes text.new ≡ string_bytes text.old ++ source_text (source_of source.now)) }
{
    match source {
        PieceSource::Raw => text.push_str("raw"),
        PieceSource::Rollup(name) => {
            text.push_str("rollup ")?;
            text.push_str(name.as_str())
        }
    }
}

/// Appends a space and a number.
fn push_number<A: Allocator>(text: &mut String<A>, number: i64) -> Result<(), AllocError>
    ensures { OnOk result (string_bytes text.new ≡ string_bytes text.old ++ (codes " " ++ signed_decimal number)) }
{
    text.push_str(" ")?;
    text.push_str(Buffer::new().format(number))
}

/// Appends the line of a piece.
fn push_line<A: Allocator>(text: &mut String<A>, piece: &Piece) -> Result<(), AllocError>
    ensures { OnOk result (string_bytes text.new ≡ string_bytes text.old ++ (piece_text piece.now ++ codes "\n")) }
{
    push_source(text, &piece.source)?;
    push_number(text, piece.from)?;
    push_number(text, piece.to)?;
    text.push_str("\n")
}

/// Returns a certificate as text: the line `plan 1`, one line per piece, and the line `end`.
pub fn write_certificate<A: Allocator + Copy, B: Allocator>(
    alloc: A,
    certificate: &Certificate<B>,
) -> Result<String<A>, AllocError>
    ensures value { IfOk result (λ text. string_bytes text ≡ certificate_text certificate.now) }

    // the text is read as the same pieces
    ensures again { IfOk result (λ text. IsCertificate (string_bytes text) certificate.now) }
{
    let mut text = String::new(alloc);
    text.push_str("plan 1\n")?;
    let pieces = certificate.pieces();
    for piece in pieces {
        push_line(&mut text, piece)?;
    }
    text.push_str("end\n")?;
    Ok(text)
}
