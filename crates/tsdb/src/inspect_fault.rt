//! Errors of an inspection, and their lines for standard error.
ghost use Rattle.std.specs.Prelude.{◌≡◌, ◌++◌, OnOk, string_bytes};
ghost use Rattle.tsdb.specs.Inspections.{inspect_status, inspect_line};

use crate::export::ExportFault;
use crate::service_fault::load_line_to;
use std::alloc::AllocError;
use ts_core::push_all;
use ts_image::LoadFault;

/// Error of an inspection.
#[derive(Clone, Copy, Drop)]
pub enum InspectFault {
    /// The image could not be loaded.
    Image(LoadFault),
    /// A name of the image can't stand in a line.
    Name,
    /// Standard output failed.
    Device,
    /// Out of memory.
    OutOfMemory,
}

impl From<AllocError> for InspectFault {
    fn from(_: AllocError) -> InspectFault {
        InspectFault::OutOfMemory
    }
}

impl From<ExportFault> for InspectFault {
    fn from(fault: ExportFault) -> InspectFault {
        match fault {
            ExportFault::Device => InspectFault::Device,
            ExportFault::Name => InspectFault::Name,
            ExportFault::OutOfMemory => InspectFault::OutOfMemory,
        }
    }
}

impl InspectFault {
    /// Returns the error of a load.
    pub fn of_load(fault: LoadFault) -> InspectFault {
        match fault {
            LoadFault::OutOfMemory => InspectFault::OutOfMemory,
            fault => InspectFault::Image(fault),
        }
    }

    /// Returns the exit status: 3 when out of memory, else 1.
    pub fn status(self) -> u8
        ensures { result ≡ inspect_status self }
    {
        match self {
            InspectFault::OutOfMemory => 3,
            _ => 1,
        }
    }

    /// Appends the line for standard error to `text`, without a cause.
    pub fn text_to(self, image: &str, text: &mut String) -> Result<(), AllocError>
        ensures { OnOk result (string_bytes text.new ≡ string_bytes text.old ++ inspect_line image.now self) }
    {
        match self {
            InspectFault::Image(fault) => load_line_to(fault, image, text),
            InspectFault::Name => push_all(
                text,
                &["tsdb: ", image, ": a name of it can't stand in a line"],
            ),
            InspectFault::Device => text.push_str("tsdb: standard output could not be written"),
            InspectFault::OutOfMemory => text.push_str("tsdb: out of memory"),
        }
    }
}
