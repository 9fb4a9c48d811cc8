//! Stores in memory instead of the proxy folders of a command.

ghost use Rattle.std.specs.Prelude.{◌≡◌, [], IfSome};
ghost use Rattle.gm_store.specs.Views.{asked_by};

use gm_file::{MainFile, Replace, Right};
use gm_name::{ModPath, ModVersion, unescape};
use gm_store::{
    FileName, Held, Mark, MemoryFolder, MemoryFolders, ProxyList, copy_name, folder_of,
    relative_name,
};
use gomod_case_files::{CaseFile, View, tidied};
use std::alloc::{AllocError, Global};

/// The folders of a store while it is filled.
#[derive(Drop)]
pub struct Folders {
    proxies: Vec<MemoryFolder>,
    marks: Vec<Mark>,
    beside: MemoryFolder,
}

impl Folders {
    /// No proxy folder, and no file beside the main file.
    pub fn new(alloc: Global) -> Folders {
        Folders {
            proxies: Vec::new(alloc),
            marks: Vec::new(alloc),
            beside: MemoryFolder::new(alloc),
        }
    }

    /// Adds a folder that holds a module's list of versions.
    pub fn put_list(
        &mut self,
        alloc: Global,
        path: &ModPath,
        bytes: &[u8],
    ) -> Result<(), AllocError> {
        self.proxies.push(MemoryFolder::new(alloc))?;
        let bytes = Vec::from_slice(alloc, bytes)?;
        self.put(FileName::List(path.copy(alloc)?), Held::Content(bytes))
    }

    /// Adds the folders that the words name, with the files that a case has in them.
    pub fn put_proxies(
        &mut self,
        alloc: Global,
        view: &View<'_>,
        list: &ProxyList,
    ) -> Result<(), AllocError> {
        for folder in &list.folders {
            self.put_proxy(alloc, view, folder.as_str())?;
        }
        self.marks.extend_from_slice(list.marks.as_slice())
    }

    /// Adds a proxy folder, with the files that a case has in it.
    fn put_proxy(
        &mut self,
        alloc: Global,
        view: &View<'_>,
        folder: &str,
    ) -> Result<(), AllocError> {
        self.proxies.push(MemoryFolder::new(alloc))?;
        let folder = tidied(alloc, folder)?;
        match self.proxies.last_mut() {
            Some(shelf) => fill(alloc, view, folder.as_str(), shelf),
            None => Ok(()),
        }
    }

    /// Adds a file to the first proxy folder, if there is one, or to the folder of the main file.
    fn put(&mut self, name: FileName, held: Held) -> Result<(), AllocError> {
        if !matches!(name, FileName::Folder(_)) {
            if let Some(shelf) = self.proxies.first_mut() {
                return shelf.put(name, held);
            }
        }
        self.beside.put(name, held)
    }

    /// Makes the device fail at a file, if one is given.
    pub fn break_at(&mut self, alloc: Global, broken: Option<&FileName>) -> Result<(), AllocError> {
        match broken {
            Some(name) => self.put(copy_name(alloc, name)?, Held::Broken),
            None => Ok(()),
        }
    }

    /// Adds the go.mod files of the folders by which a main file replaces modules, if it can be read.
    pub fn put_replacements(
        &mut self,
        alloc: Global,
        view: &View<'_>,
        main: &str,
        bytes: &[u8],
    ) -> Result<(), AllocError> {
        match MainFile::read_bytes(alloc, bytes) {
            Ok(file) => self.put_replaced(alloc, view, main, file.replaces()),
            Err(_) => Ok(()),
        }
    }

    /// Adds the go.mod files of the folders that are the right sides of the replacements of a main file.
    fn put_replaced(
        &mut self,
        alloc: Global,
        view: &View<'_>,
        main: &str,
        replaces: &[Replace],
    ) -> Result<(), AllocError> {
        let folder = folder_of(alloc, main)?;
        for replace in replaces {
            if let Right::Folder(text) = &replace.right {
                self.put_folder(alloc, view, folder.as_str(), text.as_str())?;
            }
        }
        Ok(())
    }

    /// Adds the go.mod of a folder, as a main file in another folder names it, if the case has it.
    fn put_folder(
        &mut self,
        alloc: Global,
        view: &View<'_>,
        folder: &str,
        text: &str,
    ) -> Result<(), AllocError> {
        let place = place_beside(alloc, folder, text)?;
        match view.named(place.as_str()) {
            Some(bytes) => put_content(alloc, &mut self.beside, folder_name(alloc, text)?, bytes),
            None => Ok(()),
        }
    }

    /// The store over these folders, if there is one more folder than marks.
    pub fn into_store(self, alloc: Global) -> Option<MemoryFolders>
        ensures { IfSome result (λ store. asked_by store ≡ []) }
    {
        let Folders {
            proxies,
            marks,
            beside,
        } = self;
        if proxies.len() > 0 && proxies.len() - 1 == marks.len() {
            Some(MemoryFolders::in_memory(alloc, proxies, marks, beside))
        } else {
            None
        }
    }
}

/// Adds the files of a case in a proxy folder.
fn fill(
    alloc: Global,
    view: &View<'_>,
    folder: &str,
    shelf: &mut MemoryFolder,
) -> Result<(), AllocError> {
    for file in &view.case.files {
        if let Some(bytes) = view.bytes(file) {
            put_file(alloc, shelf, folder, file, bytes)?;
        }
    }
    Ok(())
}

/// Adds a file with these bytes, if it is in the proxy folder.
fn put_file(
    alloc: Global,
    shelf: &mut MemoryFolder,
    folder: &str,
    file: &CaseFile,
    bytes: &[u8],
) -> Result<(), AllocError> {
    match name_in(alloc, folder, file.name.as_str()) {
        Some(name) => put_content(alloc, shelf, name, bytes),
        None => Ok(()),
    }
}

/// Adds a file with these bytes to a folder.
fn put_content(
    alloc: Global,
    shelf: &mut MemoryFolder,
    name: FileName,
    bytes: &[u8],
) -> Result<(), AllocError> {
    let content = Held::Content(Vec::from_slice(alloc, bytes)?);
    shelf.put(name, content)
}

/// The name of the go.mod of a folder.
fn folder_name(alloc: Global, text: &str) -> Result<FileName, AllocError> {
    Ok(FileName::Folder(String::from_str(alloc, text)?))
}

/// The place of the go.mod of a folder, as a main file in another folder names it, in its shortest spelling.
fn place_beside(alloc: Global, folder: &str, text: &str) -> Result<String, AllocError> {
    let name = folder_name(alloc, text)?;
    let relative = relative_name(alloc, &name)?;
    place_in(alloc, folder, relative.as_str())
}

/// The place of a file in a folder, in its shortest spelling.
fn place_in(alloc: Global, folder: &str, relative: &str) -> Result<String, AllocError> {
    if relative.starts_with('/') {
        return tidied(alloc, relative);
    }
    let joined = format!(in alloc; "{folder}/{relative}")?;
    tidied(alloc, joined.as_str())
}

/// The rest of a path after a folder.
fn rest_in<'a>(folder: &str, place: &'a str) -> Option<&'a str> {
    match folder {
        "" if place.starts_with('/') => None,
        "" => Some(place),
        "/" => place.strip_prefix('/'),
        _ => place.strip_prefix(folder)?.strip_prefix('/'),
    }
}

/// Which file of a proxy is at a place, if that is in this folder.
fn name_in(alloc: Global, folder: &str, place: &str) -> Option<FileName> {
    let (path, file) = rest_in(folder, place)?.split_once("/@v/")?;
    match file {
        "list" => list_name(alloc, path),
        _ => mod_name(alloc, path, file.strip_suffix(".mod")?),
    }
}

/// The list of the versions of a module whose path is escaped.
fn list_name(alloc: Global, path: &str) -> Option<FileName> {
    let path = path_of(alloc, path)?;
    Some(FileName::List(path))
}

/// The go.mod of a module whose path and version are escaped.
fn mod_name(alloc: Global, path: &str, version: &str) -> Option<FileName> {
    let path = path_of(alloc, path)?;
    let version = version_of(alloc, version)?;
    Some(FileName::Mod(path, version))
}

/// The module path that the name of a folder escapes.
fn path_of(alloc: Global, name: &str) -> Option<ModPath> {
    let text = unescape(alloc, name).ok()?;
    ModPath::parse(alloc, text.as_str()).ok()
}

/// The version that the name of a file escapes.
fn version_of(alloc: Global, name: &str) -> Option<ModVersion> {
    let text = unescape(alloc, name).ok()?;
    ModVersion::parse(alloc, text.as_str()).ok()
}
