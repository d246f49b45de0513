//! Where the documents and the tools are, which the program's texts name.

use std::alloc::{AllocError, Global};
use std::rt::Files as SystemFiles;
use std::{env, fs};

/// The folder of the documents, if the program is installed: `share/doc/camplot` beside the `bin` in which it is.
pub fn documents<R: SystemFiles + AllocGlobal>(rt: &R) -> Option<String> {
    let program = env::current_exe(rt).ok()?;
    let prefix = program.as_str().strip_suffix("/bin/camplot")?;
    let folder = format!(in rt.alloc(); "{prefix}/share/doc/camplot").ok()?;
    if fs::metadata(rt, folder.as_str()).ok()?.is_dir() {
        Some(folder)
    } else {
        None
    }
}

/// A text in which the tools have the names, and the documents the places, that they have once installed.
pub fn as_installed(
    alloc: Global,
    text: &str,
    documents: Option<&str>,
) -> Result<String, AllocError> {
    let Some(folder) = documents else {
        return text.to_string(alloc);
    };
    let folder = format!(in alloc; "{folder}/")?;
    let text = text.replace(alloc, "docs/", folder.as_str())?;
    let text = text
        .as_str()
        .replace(alloc, "tools/to_gerber", "camplot-to-gerber")?;
    text.as_str()
        .replace(alloc, "tools/to_xnc", "camplot-to-xnc")
}
