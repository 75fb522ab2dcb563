//! The lines that a server prints before its first request.
ghost use Rattle.std.specs.Prelude.{◌≡◌, ◌++◌, OnOk, string_bytes};
ghost use Rattle.tsdb.specs.Openings.{file_text};

use crate::command_line::Service;
use itoa::Buffer;
use std::alloc::{AllocError, Global};
use std::io;
use ts_core::push_all;
use ts_script::marks_to;
use ts_store::{Store, View};

/// Capacity of a line, in bytes. One that is longer grows.
const CAPACITY: usize = 1024;

/// Appends the name of an image, and the path that it leads to if it is a link.
fn file_to(text: &mut String, name: &str, path: &str) -> Result<(), AllocError>
    ensures { OnOk result (string_bytes text.new ≡ string_bytes text.old ++ file_text name.now path.now) }
{
    if name == path {
        text.push_str(name)
    } else {
        push_all(text, &[name, " -> ", path])
    }
}

/// Appends the number of raw points and the marks of a store.
fn store_to(text: &mut String, store: &Store<Global>) -> Result<(), AllocError> {
    push_all(
        text,
        &[Buffer::new().format(store.raw_points()), " raw points, "],
    )?;
    marks_to(text, store.settings(), store.marks())
}

/// Returns the line of a server that listens: its address, and where its store is from.
pub fn listening_text(
    alloc: Global,
    service: &Service<'_>,
    path: &str,
    store: &Store<Global>,
    is_loaded: bool,
) -> Result<String, AllocError> {
    let mut text = String::with_capacity(alloc, CAPACITY)?;
    push_all(
        &mut text,
        &[
            "tsdb: listening on 127.0.0.1:",
            Buffer::new().format(service.port),
            "; ",
        ],
    )?;
    file_to(&mut text, service.image, path)?;
    if is_loaded {
        text.push_str(" is loaded: ")?;
        store_to(&mut text, store)?;
        push_all(&mut text, &["; ", service.settings, " isn't read"])?;
    } else {
        push_all(
            &mut text,
            &[
                " doesn't exist: the store is empty, with the settings of ",
                service.settings,
            ],
        )?;
    }
    Ok(text)
}

/// Returns the line of an image that could not be locked.
pub fn unlocked_text(
    alloc: Global,
    service: &Service<'_>,
    error: &io::Error,
) -> Result<String, AllocError> {
    format!(in alloc;
        "tsdb: {}.lock: {error}; a second server of this image would not be refused",
        service.image
    )
}
