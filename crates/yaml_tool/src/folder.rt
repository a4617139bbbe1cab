//! The files that words name: each by itself, and of a folder the YAML files in it and below it.

use std::alloc::Global;
use std::rt::Files;
use std::{fs, io};

// So deep may folders lie in one another, and so many are looked at.
const DEPTH: u8 = 64;

const FOLDERS: u32 = 1_000_000;

// A folder that is still to be looked at, and how deep it lies.
#[derive(Drop)]
struct Folder {
    path: String,
    depth: u8,
}

fn is_yaml(name: &str) -> bool {
    name.ends_with(".yaml") || name.ends_with(".yml")
}

/// Whether a path is one of a folder.
pub fn is_folder<R: Files>(rt: &R, path: &str) -> bool {
    match fs::metadata(rt, path) {
        Ok(metadata) => metadata.is_dir(),
        Err(_) => false,
    }
}

// Looks at a folder: its YAML files are named, and its folders are still to be looked at. What is there by a link is
// taken as a file.
fn look<R: Files + AllocGlobal + Clone + Drop>(
    rt: &R,
    folder: &Folder,
    names: &mut Vec<String>,
    folders: &mut Vec<Folder>,
) -> io::Result<()> {
    let alloc: Global = rt.alloc();
    for entry in fs::read_dir(rt, folder.path.as_str())? {
        let entry = entry?;
        let path = String::from_str(alloc, entry.path().as_str())?;
        if entry.file_type()?.is_dir() {
            if folder.depth < DEPTH {
                folders.push(Folder {
                    path,
                    depth: folder.depth + 1,
                })?;
            }
        } else if is_yaml(entry.file_name()) {
            names.push(path)?;
        }
    }
    Ok(())
}

/// The YAML files in a folder and in those below it, by name.
pub fn files_below<R: Files + AllocGlobal + Clone + Drop>(
    rt: &R,
    path: &str,
) -> io::Result<Vec<String>> {
    let alloc: Global = rt.alloc();
    let mut names = Vec::new(alloc);
    let mut folders = vec![in alloc;
        Folder {
            path: String::from_str(alloc, path)?,
            depth: 0
        },
    ]?;
    for _ in 0..FOLDERS {
        let Some(folder) = folders.pop() else {
            break;
        };
        look(rt, &folder, &mut names, &mut folders)?;
    }
    names.sort_unstable();
    Ok(names)
}
