//! The names of layers and the paths of files.

ghost use Rattle.std.specs.Prelude.{◌≡◌, IfErr, IfOk, true};
ghost use Rattle.std.specs.Char.{is_ascii_graphic};
ghost use Rattle.std.specs.List.{list_all};
ghost use Rattle.cam_script.specs.Words.{is_name, is_name_byte, is_path};

use crate::line::LineFault;
use crate::path::FilePath;
use cam_edits::Name;
use std::alloc::Global;

fn are_name_bytes(bytes: &[u8]) -> bool
    ensures { result ≡ list_all is_name_byte bytes.now }
{
    bytes.iter().all(|b| b.is_ascii_alphanumeric() || *b == b'_' || *b == b'-' || *b == b'.')
}

fn are_graphic(bytes: &[u8]) -> bool
    ensures { result ≡ list_all is_ascii_graphic bytes.now }
{
    bytes.iter().all(|b| b.is_ascii_graphic())
}

/// Whether a word can name a layer.
#[tactic(auto, using(crate::proofs::Tests::within))]
pub fn is_name(word: &[u8]) -> bool
    ensures { result ≡ is_name word.now }
{
    if word.is_empty() || word.len() > 32 {
        return false;
    }
    are_name_bytes(word)
}

/// Whether a word can be a path.
#[tactic(auto, using(crate::proofs::Tests::within))]
pub fn is_path(word: &[u8]) -> bool
    ensures { result ≡ is_path word.now }
{
    if word.is_empty() || word.len() > 255 {
        return false;
    }
    are_graphic(word)
}

/// The name that a word is.
#[tactic(auto, using(crate::proofs::Tests::ascii_words))]
pub fn name_of(alloc: Global, word: &[u8]) -> Result<Name, LineFault>
    requires { is_name word.now ≡ true }
    ensures ok { IfOk result (λ name. name ≡ word.now) }
    ensures err { IfErr result (λ fault. fault ≡ LineFault.Memory) }
{
    Ok(Name::from_string(String::from_utf8_lossy(alloc, word)?))
}

/// The path that a word is.
#[tactic(auto, using(crate::proofs::Tests::ascii_words))]
pub fn path_of(alloc: Global, word: &[u8]) -> Result<FilePath, LineFault>
    requires { is_path word.now ≡ true }
    ensures ok { IfOk result (λ path. path ≡ word.now) }
    ensures err { IfErr result (λ fault. fault ≡ LineFault.Memory) }
{
    Ok(FilePath::from_string(String::from_utf8_lossy(alloc, word)?))
}
