//! Whether bytes of a request were left unread. A connection that is closed with unread bytes is reset, which may cost
//! its client the reply.
use std::net::TcpStream;
use ts_http::{Served, Status};

/// Returns true if a field of a head has this name, in small letters, and another value than 0.
fn is_field(line: &str, name: &str) -> bool {
    let Some((found, value)) = line.split_once(":") else {
        return false;
    };
    found.len() == name.len()
        && value.trim() != "0"
        && found
            .bytes()
            .zip(name.bytes())
            .all(|(a, b)| a.to_ascii_lowercase() == b)
}

/// Returns true if a request may have a body that isn't read: all but POST with a body, and those whose head is longer
/// than these first bytes.
fn may_have_body(request: &[u8]) -> bool {
    if request.starts_with(b"POST ") {
        return false;
    }
    let Ok(text) = str::from_utf8(request) else {
        return true;
    };
    let Some((head, _)) = text.split_once("\r\n\r\n") else {
        return true;
    };
    head.lines().any(|line| is_field(line, "content-length") || is_field(line, "transfer-encoding"))
}

/// Returns true if a connection has bytes that were not read.
fn has_bytes(stream: &TcpStream) -> bool {
    if stream.set_nonblocking(true).is_err() {
        return false;
    }
    let mut byte = [0];
    let found = matches!(stream.peek(&mut byte), Ok(n) if n > 0);
    let _ = stream.set_nonblocking(false);
    found
}

/// Returns true if bytes of a request, which begins with these, may be unread after its reply.
pub fn may_be_unread(stream: &TcpStream, served: Served, request: &[u8]) -> bool {
    match served {
        Served::Nothing => false,
        Served::Reply { status, route: _ } => {
            !matches!(status, Status::Success | Status::NoContent)
                || may_have_body(request)
                || has_bytes(stream)
        }
    }
}
