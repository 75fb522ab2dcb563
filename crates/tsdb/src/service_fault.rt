//! Errors of a service, and their lines for standard error.
ghost use Rattle.std.specs.Prelude.{◌≡◌, ◌++◌, OnOk, string_bytes};
ghost use Rattle.tsdb.specs.Services.{service_status, service_line, settings_words, load_words, load_line, save_words, save_line};

use crate::command_line::Service;
use itoa::Buffer;
use std::alloc::AllocError;
use std::io;
use ts_core::{FaultCode, SettingsError, SettingsFault, push_all};
use ts_image::{LoadFault, SaveFault};

/// Error of a service: before its first request, or of the save at its end.
#[derive(Clone, Copy, Drop)]
pub enum ServiceFault {
    /// The settings file could not be read.
    NoSettings,
    /// The settings have an error.
    Settings(SettingsFault),
    /// The image could not be loaded.
    Image(LoadFault),
    /// Another server has locked the image.
    InUse,
    /// The port could not be listened on.
    NoPort,
    /// The image could not be saved at the end.
    NotSaved(SaveFault),
    /// Out of memory.
    OutOfMemory,
}

/// Returns the words of a fault of settings, as `tsdb faults` prints them.
fn settings_words(fault: SettingsFault) -> &'static str
    ensures { result.now ≡ settings_words fault }
{
    match fault {
        SettingsFault::Form => FaultCode::BadSettingsText.message(),
        SettingsFault::TooManyRules => FaultCode::TooManyRules.message(),
        SettingsFault::OfRule(fault, _) => fault.code().message(),
    }
}

/// Returns the words of a fault of a load.
fn load_words(fault: LoadFault) -> &'static str
    ensures { result.now ≡ load_words fault }
{
    match fault {
        LoadFault::NotAnImage => FaultCode::NotAnImage.message(),
        LoadFault::OtherVersion => FaultCode::ImageVersion.message(),
        LoadFault::Misshapen(_) => FaultCode::BrokenImage.message(),
        LoadFault::Contradiction => FaultCode::ContradictoryImage.message(),
        LoadFault::Device => FaultCode::ImageDevice.message(),
        LoadFault::TooManyReads => FaultCode::EndlessImage.message(),
        LoadFault::OutOfMemory => "out of memory",
    }
}

/// Appends the line of a load that failed.
pub fn load_line_to(fault: LoadFault, image: &str, text: &mut String) -> Result<(), AllocError>
    ensures { OnOk result (string_bytes text.new ≡ string_bytes text.old ++ load_line image.now fault) }
{
    push_all(text, &["tsdb: ", image, ": "])?;
    fault.text_to(text)?;
    push_all(text, &[": ", load_words(fault)])
}

/// Returns the words of a fault of a save.
fn save_words(fault: SaveFault) -> &'static str
    ensures { result.now ≡ save_words fault }
{
    match fault {
        SaveFault::Device => FaultCode::ImageDevice.message(),
        SaveFault::OutOfMemory => "out of memory",
    }
}

/// Appends the line of a save that failed.
pub fn save_line_to(fault: SaveFault, image: &str, text: &mut String) -> Result<(), AllocError>
    ensures { OnOk result (string_bytes text.new ≡ string_bytes text.old ++ save_line image.now fault) }
{
    push_all(text, &["tsdb: ", image, ": "])?;
    fault.text_to(text)?;
    push_all(text, &[": ", save_words(fault)])
}

impl ServiceFault {
    /// Returns the error of the settings file.
    pub fn of_file(error: &io::Error) -> ServiceFault {
        if error.kind() == io::ErrorKind::OutOfMemory {
            ServiceFault::OutOfMemory
        } else {
            ServiceFault::NoSettings
        }
    }

    /// Returns the error of the text of settings.
    pub fn of_settings(error: &SettingsError) -> ServiceFault {
        match error {
            SettingsError::OutOfMemory => ServiceFault::OutOfMemory,
            SettingsError::Fault(fault) => ServiceFault::Settings(*fault),
        }
    }

    /// Returns the error of a load.
    pub fn of_load(fault: LoadFault) -> ServiceFault {
        match fault {
            LoadFault::OutOfMemory => ServiceFault::OutOfMemory,
            fault => ServiceFault::Image(fault),
        }
    }

    /// Returns the error of the save at the end.
    pub fn of_save(fault: SaveFault) -> ServiceFault {
        match fault {
            SaveFault::OutOfMemory => ServiceFault::OutOfMemory,
            fault => ServiceFault::NotSaved(fault),
        }
    }

    /// Returns the exit status: 3 when out of memory, else 1.
    pub fn status(self) -> u8
        ensures { result ≡ service_status self }
    {
        match self {
            ServiceFault::OutOfMemory => 3,
            _ => 1,
        }
    }

    /// Appends the line for standard error to `text`, without a cause. It names the file or the port that is at fault.
    pub fn text_to(self, service: &Service<'_>, text: &mut String) -> Result<(), AllocError>
        ensures { OnOk result (string_bytes text.new ≡ string_bytes text.old ++ service_line service.now self) }
    {
        match self {
            ServiceFault::NoSettings => push_all(
                text,
                &[
                    "tsdb: ",
                    service.settings,
                    ": the settings could not be read",
                ],
            ),
            ServiceFault::Settings(fault) => {
                push_all(text, &["tsdb: ", service.settings, ": "])?;
                fault.text_to(text)?;
                push_all(text, &[": ", settings_words(fault)])
            }
            ServiceFault::Image(fault) => load_line_to(fault, service.image, text),
            ServiceFault::InUse => push_all(
                text,
                &["tsdb: ", service.image, ": another tsdb serves this image"],
            ),
            ServiceFault::NoPort => {
                let mut port = Buffer::new();
                push_all(
                    text,
                    &[
                        "tsdb: port ",
                        port.format(service.port),
                        " of 127.0.0.1 could not be listened on",
                    ],
                )
            }
            ServiceFault::NotSaved(fault) => save_line_to(fault, service.image, text),
            ServiceFault::OutOfMemory => text.push_str("tsdb: out of memory"),
        }
    }
}
