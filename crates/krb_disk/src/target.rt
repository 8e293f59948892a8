//! The target of a save.

ghost use Rattle.std.specs.Prelude.{◌≡◌, ◌≢◌, [], string_bytes, IfOk, IfSome, OnOk, bit_and};
ghost use Rattle.std.specs.Path.{path_buf_bytes, path_parent};
ghost use Rattle.krb_disk.specs.NewFile.{folder, new_path};

use crate::fault::DiskFault;
use crate::looks::{Found, Looks, is_same_file};
use crate::open_file::System;
use krb_files::Cause;
use std::alloc::{AllocError, Allocator};
use std::io::{self, ErrorKind};
use std::path::PathBuf;

/// The most symbolic links that are followed, as in Linux.
const MOST_LINKS: usize = 40;

/// How often links are followed at most if they lead elsewhere meanwhile, as when another run just saved the file.
const MOST_WAYS: usize = 10;

/// What is appended to the old file's name for that of the new one.
const SUFFIX: &str = ".krbfile";

/// The target of a save: a file to be changed, or a free name.
#[derive(Drop)]
pub struct Target<A: Allocator> {
    /// The name that was given, before links were followed.
    name: String<A>,
    path: PathBuf<A>,
    /// What was seen of the file at `path`, if one is there.
    old: Option<Found>,
}

impl<A: Allocator> Target<A> {
    pub fn name(&self) -> &str
        ensures { result.now ≡ string_bytes self.now.name }
    {
        self.name.as_str()
    }

    /// Returns its path, after links were followed.
    pub fn path(&self) -> &str
        ensures { result.now ≡ path_buf_bytes self.now.path }
    {
        self.path.as_str()
    }

    /// Returns the folder of its path, `.` for a name alone.
    pub fn folder(&self) -> &str
        ensures { result.now ≡ folder (path_parent (path_buf_bytes self.now.path)) }
    {
        match self.path.parent() {
            Some(folder) if folder.as_str() != "" => folder.as_str(),
            _ => ".",
        }
    }

    /// Returns the path of the new file, beside the old one.
    pub fn new_path<B: Allocator>(&self, alloc: B) -> Result<String<B>, AllocError>
        ensures { IfOk result (λ name. string_bytes name ≡ new_path (path_buf_bytes self.now.path)) }
    {
        let mut name = String::from_str(alloc, self.path.as_str())?;
        name.push_str(SUFFIX)?;
        Ok(name)
    }

    pub fn owner(&self) -> Option<u32> {
        self.old.as_ref().map(|old| old.owner)
    }
}

/// Follows symbolic links from a name to the plain file or the free name that they lead to. Anything else there is an
/// error, and so are too many links, a link of /proc to a file without a name, and the name of a new file.
pub fn find_target<R: System>(looks: &Looks<'_, R>, name: &str) -> Result<Target<R::A>, DiskFault>
    ensures named { OnOk result (name.now ≢ []) }
    ensures of_name { IfOk result (λ target. string_bytes target.name ≡ name.now) }
    ensures plain { IfOk result (λ target. IfSome target.old (λ old. bit_and old.mode 0o170000 ≡ 0o100000)) }
{
    if name.is_empty() {
        return Err(DiskFault::Failed(Cause::NoDirectory));
    }
    for _ in 0..MOST_WAYS {
        let (path, old) = follow_links(looks, name)?;
        if path.as_str() == name || leads_to(looks, name, old)? {
            return target_at(looks.alloc(), name, path, old);
        }
    }
    Err(DiskFault::Failed(Cause::NoName))
}

/// Returns the path of the new file of a name, if it can be found.
pub fn new_path_of<R: System>(looks: &Looks<'_, R>, name: &str) -> Option<String<R::A>> {
    find_target(looks, name).ok()?.new_path(looks.alloc()).ok()
}

// Returns the target at `path`, unless that is the name of a new file.
fn target_at<A: Allocator>(
    alloc: A,
    name: &str,
    path: PathBuf<A>,
    old: Option<Found>,
) -> Result<Target<A>, DiskFault>
    ensures of_name { IfOk result (λ target. string_bytes target.name ≡ name.now) }
    ensures old { IfOk result (λ target. target.old ≡ old) }
{
    if path.as_str().ends_with(SUFFIX) {
        return Err(DiskFault::Failed(Cause::NameOfSaves));
    }
    let name = String::from_str(alloc, name)?;
    Ok(Target { name, path, old })
}

// Follows links by their texts. Returns where the last one leads, and what was seen of the file there.
fn follow_links<R: System>(
    looks: &Looks<'_, R>,
    name: &str,
) -> Result<(PathBuf<R::A>, Option<Found>), DiskFault>
    ensures { IfOk result (λ end. IfSome end.1 (λ old. bit_and old.mode 0o170000 ≡ 0o100000)) }
{
    let mut path = PathBuf::from_str(looks.alloc(), name)?;
    for _ in 0..=MOST_LINKS {
        match looks.look(path.as_str())? {
            Some(old) if old.is_link() => follow(looks, &mut path)?,
            Some(old) if !old.is_file() => return Err(DiskFault::Failed(Cause::NotAPlainFile)),
            old => return Ok((path, old)),
        }
    }
    Err(DiskFault::Failed(Cause::TooManyLinks))
}

fn follow<R: System>(looks: &Looks<'_, R>, path: &mut PathBuf<R::A>) -> Result<(), DiskFault> {
    match looks.follow(path.as_str()) {
        Ok(link) => Ok(path.set_file_name(link.as_str())?),
        Err(error) if is_no_text(&error) => Err(DiskFault::Failed(Cause::BadLink)),
        Err(error) => Err(DiskFault::from(error)),
    }
}

// Returns whether the error means that the text of a link is not UTF-8, which the system allows.
fn is_no_text(error: &io::Error) -> bool {
    error.kind() == ErrorKind::InvalidFilename && error.raw_os_error().is_none()
}

// Returns whether the system, too, follows `name` to that file, or to none. A link of /proc leads to an open file,
// even one that no longer has a name.
fn leads_to<R: System>(looks: &Looks<'_, R>, name: &str, file: Option<Found>) -> io::Result<bool> {
    match (looks.come_to(name), file) {
        (Ok(found), Some(file)) => Ok(is_same_file(&found, &file)),
        (Ok(_), None) => Ok(false),
        (Err(error), _) if error.kind() != ErrorKind::NotFound => Err(error),
        (Err(_), file) => Ok(file.is_none()),
    }
}
