// Files that are written whole, or not at all.
ghost use Rattle.std.specs.Prelude.{◌≡◌, MatchResult};
ghost use Rattle.faults.specs.declared.fault.Fault.TheVariants.{Memory as no_memory};
ghost use Rattle.programs.specs.Beside.{Beside};

use faults::fault::Fault;
use faults::no_words::NoWords;
use std::alloc::Global;
use std::fs::{File, OpenOptions};
use std::{fs, io, process};

/// A file that is written beside its place, and moved there when it is whole: a full disk or an interruption leaves what stood there.
/// What is no file, such as a device, is written in its place.
#[derive(Drop)]
pub struct WholeFile {
    // As it was typed, and where it is behind all symbolic links.
    name: String,
    place: String,
    beside: Option<String>,
}

impl WholeFile {
    /// Opens the file that is written until it is whole.
    pub fn create(rt: &HostRuntime, name: &str) -> Result<(WholeFile, File), Fault> {
        match begin(rt, name) {
            Ok(begun) => Ok(begun),
            Err(e) => Err(unwritten(rt.alloc(), name, e)?),
        }
    }

    /// Moves the whole file to its place.
    pub fn finish(self, rt: &HostRuntime) -> Result<(), Fault> {
        let Some(beside) = &self.beside else {
            return Ok(());
        };
        match fs::rename(rt, beside.as_str(), self.place.as_str()) {
            Ok(()) => Ok(()),
            Err(e) => Err(self.discard(rt, Fault::Output(e))),
        }
    }

    /// Takes away what is written so far, since something failed; gives what is told of it.
    pub fn discard(self, rt: &HostRuntime, fault: Fault) -> Fault {
        if let Some(beside) = &self.beside {
            // The error that is told is the first one.
            let _ = fs::remove_file(rt, beside.as_str());
        }
        match fault {
            Fault::Output(e) => Fault::Unwritten(self.name, e),
            fault => fault,
        }
    }
}

// Opens the file beside its place. What may not be written, or is no file, is found out first.
fn begin(rt: &HostRuntime, name: &str) -> io::Result<(WholeFile, File)> {
    let place = match fs::canonicalize(rt, name) {
        Ok(path) => String::from_str(rt.alloc(), path.as_str())?,
        Err(_) => return begin_anew(rt, name),
    };
    let old = OpenOptions::new().write(true).open(rt, place.as_str())?;
    let metadata = old.metadata()?;
    if !metadata.is_file() {
        return Ok((whole(rt.alloc(), name, place, None)?, old));
    }
    let (file, beside) = open_beside(rt, place.as_str())?;
    let whole = whole(rt.alloc(), name, place, Some(beside))?;
    // Where the permissions cannot be those of the old file, they are those of a new one.
    let _ = file.set_permissions(metadata.permissions());
    Ok((whole, file))
}

// The same where no file stands there. A symbolic link that leads to none is written through.
fn begin_anew(rt: &HostRuntime, name: &str) -> io::Result<(WholeFile, File)> {
    let place = String::from_str(rt.alloc(), name)?;
    if fs::symlink_metadata(rt, name).is_ok() {
        let file = fs::create(rt, name)?;
        return Ok((whole(rt.alloc(), name, place, None)?, file));
    }
    let (file, beside) = open_beside(rt, name)?;
    Ok((whole(rt.alloc(), name, place, Some(beside))?, file))
}

// A new file beside a place, and its name.
fn open_beside(rt: &HostRuntime, place: &str) -> io::Result<(File, String)> {
    let beside = format!(in rt.alloc(); "{place}.{}.part", process::id(rt.process()))?;
    let file = OpenOptions::new()
        .write(true)
        .create_new(true)
        .open(rt, beside.as_str())?;
    Ok((file, beside))
}

fn whole(heap: Global, name: &str, place: String, beside: Option<String>) -> io::Result<WholeFile> {
    let name = String::from_str(heap, name)?;
    Ok(WholeFile {
        name,
        place,
        beside,
    })
}

fn unwritten(heap: Global, name: &str, e: io::Error) -> Result<Fault, Fault> {
    Ok(Fault::Unwritten(String::from_str(heap, name)?, e))
}

/// An option --svg before the rule takes the rule's first word for its file, where it has none of its own. Too few words are
/// left then.
pub fn beside_file(heap: Global, fault: Fault, file: &str) -> Result<Fault, Fault>
    ensures { MatchResult result (Beside fault file.now) (λ e. e ≡ no_memory) }
{
    match fault {
        Fault::NoRule(NoWords::Few(rest))
        | Fault::NotRun(NoWords::Few(rest))
        | Fault::NotDecided(NoWords::Few(rest)) => {
            let file = String::from_str(heap, file)?;
            Ok(Fault::RuleTakenForFile { file, rest })
        }
        fault => Ok(fault),
    }
}
