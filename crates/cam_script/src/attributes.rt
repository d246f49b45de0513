//! The edits of file attributes that a line asks for.

ghost use Rattle.std.specs.Prelude.{◌≡◌, ◌∷◌, IfOk};
ghost use Rattle.cam_objects.specs.Attributes.{comma};
ghost use Rattle.cam_script.specs.Parsing.{drop_change, is_no_memory, set_change};
ghost use Rattle.cam_script.specs.Machinery.Reading.{unless_refused};

use crate::line::LineFault;
use crate::words::Words;
use cam_edits::{Change, is_field_text, is_key};
use cam_units::Items;
use std::alloc::{AllocError, Global};

/// The bytes of a word.
fn copied(alloc: Global, word: &[u8]) -> Result<Items<u8>, AllocError>
    ensures { IfOk result (λ bytes. bytes ≡ word.now) }
{
    Ok(Items::from_vec(Vec::from_slice(alloc, word)?))
}

/// The bytes of a word, with a comma before them.
fn behind_comma(alloc: Global, word: &[u8]) -> Result<Items<u8>, AllocError>
    ensures { IfOk result (λ bytes. bytes ≡ comma ∷ word.now) }
{
    let mut bytes = Vec::with_capacity(alloc, word.len() + 1)?;
    bytes.push(b',')?;
    bytes.extend_from_slice(word)?;
    Ok(Items::from_vec(bytes))
}

/// The words behind the name of a setting.
pub fn set_change(alloc: Global, words: &mut Words<'_>) -> Result<Change, LineFault>
    ensures { unless_refused (set_change words.old) (is_no_memory result) ≡ result }
{
    let key = words.next().ok_or(LineFault::BadLine)?;
    if !is_key(key) {
        return Err(LineFault::BadLine);
    }
    let Some(text) = words.next() else {
        let key = copied(alloc, key)?;
        let fields = Items::from_vec(Vec::new(alloc));
        return Ok(Change::SetAttribute { key, fields });
    };
    if words.next().is_some() || !is_field_text(text) {
        return Err(LineFault::BadLine);
    }
    let key = copied(alloc, key)?;
    let fields = behind_comma(alloc, text)?;
    Ok(Change::SetAttribute { key, fields })
}

/// The words behind the name of a drop.
#[tactic(auto, using(crate::proofs::Forms::no_drop))]
pub fn drop_change(alloc: Global, words: &mut Words<'_>) -> Result<Change, LineFault>
    ensures { unless_refused (drop_change words.old) (is_no_memory result) ≡ result }
{
    let key = words.one().ok_or(LineFault::BadLine)?;
    if !is_key(key) {
        return Err(LineFault::BadLine);
    }
    let key = copied(alloc, key)?;
    Ok(Change::DropAttribute { key })
}
