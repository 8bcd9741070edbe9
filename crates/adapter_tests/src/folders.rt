//! Rows of printers that are folders.

use crate::play::{Detail, play};
use crate::row::AdapterRow;
use adapter_printers::Folder;
use std::alloc::AllocError;
use std::os::unix::fs::{MetadataExt, PermissionsExt};
use std::{fs, io};

/// What is at a folder's path before its row is played.
#[derive(Clone, Copy)]
enum Before {
    Nothing,
    /// A file.
    File,
    /// The folder, with a folder in it at this path.
    FolderWith(&'static str),
}

/// The folder of a row, and the files that must be in it afterwards.
#[derive(Clone, Copy)]
struct RowFolder {
    row: &'static str,
    path: &'static str,
    before: Before,
    files: &'static [(&'static str, &'static [u8])],
}

const FOLDERS: [RowFolder; 4] = [
    RowFolder {
        row: "two jobs of one id",
        path: "printed",
        before: Before::Nothing,
        files: &[
            ("printed/7-hall.txt", b"hello"),
            ("printed/7-hall-2.txt", b"world"),
        ],
    },
    RowFolder {
        row: "formats",
        path: "formats",
        before: Before::Nothing,
        files: &[
            ("formats/1-hall.pdf", b"%PDF-"),
            ("formats/2-hall.ps", b"%!PS-"),
            ("formats/3-hall.pcl", b"\x1bE\x1b&l"),
            ("formats/4-hall.pwg", b"RaS2\0"),
            ("formats/5-hall.urf", b"UNIRAST"),
            ("formats/6-hall.jpg", b"\xff\xd8\xff\xe0\0"),
            ("formats/7-hall.png", b"\x89PNG\r"),
            ("formats/8-hall.bin", b"\0\0\0\0\0"),
        ],
    },
    RowFolder {
        row: "a folder that can't be written to",
        path: "file",
        before: Before::File,
        files: &[],
    },
    RowFolder {
        row: "a file that can't be written",
        path: "taken",
        before: Before::FolderWith("taken/.7-hall.txt.part"),
        files: &[],
    },
];

/// The folder of a row.
fn folder_of(row: &str) -> Option<RowFolder> {
    for &folder in &FOLDERS {
        if folder.row == row {
            return Some(folder);
        }
    }
    None
}

/// The printer of a folder.
fn printer(rt: &HostRuntime, path: &str) -> Result<Folder, AllocError> {
    let alloc = rt.alloc();
    let path = String::from_str(alloc, path)?;
    let name = String::from_str(alloc, "hall")?;
    Ok(Folder::new(alloc, path, name, None, 1_000))
}

/// Makes what is at a folder's path before its row is played.
fn prepare(rt: &HostRuntime, folder: &RowFolder) -> io::Result<()> {
    let _absent = fs::remove_dir_all(rt, folder.path);
    match folder.before {
        Before::Nothing => Ok(()),
        Before::File => fs::write(rt, folder.path, b"no folder"),
        Before::FolderWith(path) => fs::create_dir_all(rt, path),
    }
}

/// Removes what is at a folder's path.
fn remove(rt: &HostRuntime, folder: &RowFolder) -> io::Result<()> {
    match folder.before {
        Before::File => fs::remove_file(rt, folder.path),
        Before::Nothing | Before::FolderWith(_) => fs::remove_dir_all(rt, folder.path),
    }
}

/// Whether a file has these octets, and can be read by its owner alone. The error is the system's, of the file.
fn holds(rt: &HostRuntime, path: &str, octets: &[u8]) -> io::Result<bool> {
    let mode = fs::metadata(rt, path)?.mode() & 0o777;
    let read = fs::read(rt, path)?;
    Ok(mode == 0o600 && read.as_slice() == octets)
}

/// The first file of a folder that isn't as it must be.
fn missing_file(rt: &HostRuntime, folder: &RowFolder) -> Option<&'static str> {
    for &(path, octets) in folder.files {
        match holds(rt, path, octets) {
            Ok(true) => {}
            Ok(false) | Err(_) => return Some(path),
        }
    }
    None
}

/// Plays a row in its folder. Returns how what came of it differs from the row; nothing, if it doesn't. The error is
/// the system's, of the folder.
pub(crate) fn play_in_folder(rt: &HostRuntime, row: AdapterRow) -> io::Result<Option<String>> {
    let Some(folder) = folder_of(row.name.as_str()) else {
        let name = row.name.as_str();
        return Ok(Some(format!(in rt.alloc(); "{name}: the row has no folder")?));
    };
    prepare(rt, &folder)?;
    let difference = play(
        rt.alloc(),
        rt,
        row,
        printer(rt, folder.path)?,
        Detail::Events,
    )?;
    let missing = missing_file(rt, &folder);
    remove(rt, &folder)?;
    match missing {
        Some(path) => Ok(Some(format!(in rt.alloc(); "{path} isn't as it must be")?)),
        None => Ok(difference),
    }
}
