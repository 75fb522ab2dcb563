//! The file of a store's image: locked while it is served, loaded before the first request, and saved so that a crash
//! leaves the old image or the new one.
ghost use Rattle.std.specs.Prelude.{◌≡◌, IfOk, IfSome, Some, None};
ghost use Rattle.std.specs.IoError.{error_kind};
ghost use Rattle.std.specs.declared.io.ErrorKind.TheVariants.{OutOfMemory as NoMemory};
ghost use Rattle.ts_image.specs.declared.load_fault.LoadFault.TheVariants.{OutOfMemory, Device};
ghost use Rattle.tsdb.specs.Services.{IsFromImage};

use std::alloc::{AllocError, Global};
use std::fs::{File, OpenFile, OpenOptions};
use std::hash::RandomState;
use std::io::Write;
use std::os::unix::fs::OpenOptionsExt;
use std::path::Path;
use std::rt::Files;
use std::{fs, io};
use ts_core::{Sink, Source};
use ts_image::{LoadFault, SaveFault, load, save};
use ts_store::Store;

/// Most symbolic links from a name to its file.
const LINKS: u32 = 40;

/// Mode of an image that doesn't exist yet, and of its lock.
const PRIVATE: u32 = 0o600;

/// Error of a load or a save, with the cause that the system gives, if it does.
#[derive(Clone, Copy, Drop)]
pub struct Failed<F> {
    /// The fault.
    pub fault: F,
    /// The cause.
    pub cause: Option<io::Error>,
}

/// The file of an image.
#[derive(Drop)]
pub struct ImageFile<'a> {
    /// The image's name.
    name: &'a str,
    /// The file that the image's name leads to.
    path: String,
    /// The file that an image is written to first.
    new: String,
    /// The file that is locked while the image is served.
    locked: String,
    /// That file, once it is locked. The lock ends with the process.
    lock: Option<File>,
}

/// Returns the path of a link's target, which may be relative to the link's folder.
fn target_path(alloc: Global, link: &str, target: &str) -> Result<String, AllocError> {
    let mut path = String::new(alloc);
    if !target.starts_with("/") {
        if let Some((folder, _)) = link.rsplit_once("/") {
            path.push_str(folder)?;
            path.push_str("/")?;
        }
    }
    path.push_str(target)?;
    Ok(path)
}

/// Returns the file that a name leads to: the name itself, or the last target if it is a symbolic link.
fn followed<R: Files + AllocGlobal>(rt: &R, name: &str) -> io::Result<String> {
    let mut path = String::from_str(rt.alloc(), name)?;
    for _ in 0..LINKS {
        match fs::read_link(rt, path.as_str()) {
            Ok(target) => path = target_path(rt.alloc(), path.as_str(), target.as_str())?,
            Err(error) if error.kind() == io::ErrorKind::OutOfMemory => return Err(error),
            Err(_) => return Ok(path),
        }
    }
    Ok(path)
}

/// Returns a name with an ending.
fn with_ending(alloc: Global, name: &str, ending: &str) -> Result<String, AllocError> {
    let mut whole = String::from_str(alloc, name)?;
    whole.push_str(ending)?;
    Ok(whole)
}

/// Creates a file, without following a link and without opening one that exists.
fn create_new<R: Files>(rt: &R, name: &str) -> io::Result<R::File> {
    let mut options = OpenOptions::new();
    options.write(true).create_new(true).mode(PRIVATE);
    options.open(rt, name)
}

/// Opens the file of a lock, creating it if needed. A folder that may not be written has to have it.
fn open_lock<R: Files>(rt: &R, name: &str) -> io::Result<R::File> {
    if let Ok(found) = fs::symlink_metadata(rt, name) {
        if !found.is_file() {
            return Err(io::Error::other("it isn't a regular file"));
        }
        return match OpenOptions::new().read(true).write(true).open(rt, name) {
            Ok(file) => Ok(file),
            Err(_) => fs::open(rt, name),
        };
    }
    match create_new(rt, name) {
        Err(error) if error.kind() == io::ErrorKind::AlreadyExists => fs::open(rt, name),
        result => result,
    }
}

/// A file that is written, with the last error of a write.
#[derive(Drop)]
struct Written<F: Write> {
    file: F,
    error: Option<io::Error>,
}

impl<F: Write> Write for Written<F> {
    fn write(&mut self, buf: &[u8]) -> io::Result<usize> {
        let result = self.file.write(buf);
        if let Err(error) = &result {
            self.error = Some(*error);
        }
        result
    }

    fn flush(&mut self) -> io::Result<()> {
        self.file.flush()
    }
}

/// Returns the error of a save without a cause.
fn without_cause(fault: SaveFault) -> Failed<SaveFault> {
    Failed { fault, cause: None }
}

/// Returns the error of a save that the system refused.
fn refused(error: io::Error) -> Failed<SaveFault> {
    if error.kind() == io::ErrorKind::OutOfMemory {
        without_cause(SaveFault::OutOfMemory)
    } else {
        Failed {
            fault: SaveFault::Device,
            cause: Some(error),
        }
    }
}

/// Returns the error of a load that the system refused.
pub fn not_loaded(error: io::Error) -> Failed<LoadFault>
    ensures memory { error_kind error ≡ NoMemory → (result.fault ≡ OutOfMemory) × (result.cause ≡ None) }
    ensures other { (error_kind error ≡ NoMemory → ⊥) → (result.fault ≡ Device) × (result.cause ≡ Some error) }
{
    if error.kind() == io::ErrorKind::OutOfMemory {
        Failed {
            fault: LoadFault::OutOfMemory,
            cause: None,
        }
    } else {
        Failed {
            fault: LoadFault::Device,
            cause: Some(error),
        }
    }
}

/// Opens an image to read it; it has to be a regular file.
pub fn open_image<R: Files>(rt: &R, path: &str) -> io::Result<R::File> {
    if !fs::metadata(rt, path)?.is_file() {
        return Err(io::Error::other("it isn't a regular file"));
    }
    fs::open(rt, path)
}

/// Renames a file, and flushes the folder of its new name, so that a crash doesn't undo the rename.
fn rename_and_flush<R: Files>(rt: &R, from: &str, to: &str) -> io::Result<()> {
    fs::rename(rt, from, to)?;
    let folder = match Path::new(to).parent() {
        Some(folder) if !folder.as_str().is_empty() => folder,
        _ => Path::new("."),
    };
    fs::open(rt, folder)?.sync_all()
}

impl<'a> ImageFile<'a> {
    /// Finds the file that a name leads to. A link is followed now, once for all saves.
    pub fn find<R: Files + AllocGlobal>(rt: &R, name: &'a str) -> io::Result<ImageFile<'a>> {
        let path = followed(rt, name)?;
        Ok(ImageFile {
            name,
            new: with_ending(rt.alloc(), path.as_str(), ".new")?,
            locked: with_ending(rt.alloc(), path.as_str(), ".lock")?,
            path,
            lock: None,
        })
    }

    /// Returns the image's name.
    pub fn name(&self) -> &str {
        self.name
    }

    /// Returns the path that the name leads to.
    pub fn path(&self) -> &str {
        self.path.as_str()
    }

    /// Locks the image. The error has the kind `WouldBlock` if another server has locked it.
    pub fn lock<R: Files<File = File>>(&mut self, rt: &R) -> io::Result<()> {
        if self.lock.is_some() {
            return Ok(());
        }
        let file = open_lock(rt, self.locked.as_str())?;
        file.try_lock()?;
        self.lock = Some(file);
        Ok(())
    }

    /// Loads the store of the image, or returns `None` if there is no such file.
    pub fn load<R: Files + AllocGlobal>(
        &self,
        rt: &R,
        seed: RandomState,
    ) -> Result<Option<Store<Global>>, Failed<LoadFault>>
        ensures { IfOk result (λ found. IfSome found IsFromImage) }
    {
        let mut source = match open_image(rt, self.path.as_str()) {
            Ok(file) => Source::new(file),
            Err(error) if error.kind() == io::ErrorKind::NotFound => return Ok(None),
            Err(error) => return Err(not_loaded(error)),
        };
        match load(rt.alloc(), seed, &mut source) {
            Ok(store) => Ok(Some(store)),
            Err(fault) => Err(Failed { fault, cause: None }),
        }
    }

    /// Writes a store to `IMAGE.new`, with the mode of the image, and flushes it to disk.
    fn write<R: Files + AllocGlobal>(
        &self,
        rt: &R,
        store: &Store<Global>,
    ) -> Result<(), Failed<SaveFault>> {
        let _ = fs::remove_file(rt, self.new.as_str());
        let file = match create_new(rt, self.new.as_str()) {
            Ok(file) => file,
            Err(error) => return Err(refused(error)),
        };
        if let Ok(found) = fs::metadata(rt, self.path.as_str()) {
            let _ = file.set_permissions(found.permissions());
        }
        let mut sink = Sink::new(Written { file, error: None });
        let saved = save(rt.alloc(), store, &mut sink);
        let written = sink.into_inner();
        if let Err(fault) = saved {
            return Err(Failed {
                fault,
                cause: written.error,
            });
        }
        match written.file.sync_all() {
            Ok(()) => Ok(()),
            Err(error) => Err(refused(error)),
        }
    }

    /// Saves a store as an image. Writes it to `IMAGE.new`, flushes that to disk, renames it to `IMAGE`, and flushes
    /// the folder. After an error before the rename, the old image is still there. If the image could not be locked at
    /// the start, it has to be free now.
    pub fn save<R: Files<File = File> + AllocGlobal>(
        &mut self,
        rt: &R,
        store: &Store<Global>,
    ) -> Result<(), Failed<SaveFault>> {
        match self.lock(rt) {
            Err(error) if error.kind() == io::ErrorKind::WouldBlock => {
                return Err(refused(io::Error::other("another tsdb serves this image")));
            }
            _ => {}
        }
        if let Err(failed) = self.write(rt, store) {
            let _ = fs::remove_file(rt, self.new.as_str());
            return Err(failed);
        }
        match rename_and_flush(rt, self.new.as_str(), self.path.as_str()) {
            Ok(()) => Ok(()),
            Err(error) => Err(refused(error)),
        }
    }
}
