//! The checks of file attributes: whether one may be set.

ghost use Rattle.std.specs.Prelude.{◌≡◌, ◌≢◌, ◌↔◌, All, IsTrue};
ghost use Rattle.cam_objects.specs.Attributes.{AreFields, IsAttribute, MaySet, attribute_of, comma, is_attribute_byte};

use crate::layer::Layer;
use cam_refusals::limits::ATTRIBUTE_LIMIT;

impl Layer {
    /// Whether `set_attribute` may set these: `is_attribute` holds of them, and the layer has at most 1,000 file
    /// attributes afterwards. Takes no memory.
    pub fn check_attribute(&self, name: &[u8], fields: &[u8]) -> bool
        ensures { IsTrue result ↔ MaySet self.now.attributes.items (attribute_of name.now fields.now) }
    {
        if !is_attribute(name, fields) {
            return false;
        }
        match self.attribute_place(name) {
            Some(_) => self.attributes.len() <= ATTRIBUTE_LIMIT,
            None => self.attributes.len() < ATTRIBUTE_LIMIT,
        }
    }
}

/// Whether these are the name and the fields of a file attribute: characters other than `%` and `*`, and no comma in
/// the name; the fields are empty or begin with a comma. The line ends and the tab are the only control characters.
pub fn is_attribute(name: &[u8], fields: &[u8]) -> bool
    ensures { IsTrue result ↔ IsAttribute (attribute_of name.now fields.now) }
{
    is_name(name) && is_text(fields) && are_apart(fields)
}

/// Whether these characters may be the name of a file attribute.
fn is_name(name: &[u8]) -> bool
    ensures { IsTrue result
        ↔ (All (λ byte. IsTrue (is_attribute_byte byte)) name.now × All (λ byte. byte ≢ comma) name.now) }
{
    name.iter()
        .all(|byte| is_attribute_byte(*byte) && *byte != b',')
}

/// Whether a file attribute may have these characters.
fn is_text(text: &[u8]) -> bool
    ensures { IsTrue result ↔ All (λ byte. IsTrue (is_attribute_byte byte)) text.now }
{
    text.iter().all(|byte| is_attribute_byte(*byte))
}

/// Whether fields begin with a comma or are empty.
fn are_apart(fields: &[u8]) -> bool
    ensures { IsTrue result ↔ AreFields fields.now }
{
    match fields {
        [] => true,
        [first, ..] => *first == b',',
    }
}

fn is_attribute_byte(byte: u8) -> bool
    ensures { result ≡ is_attribute_byte byte }
{
    (byte >= b' ' || matches!(byte, b'\t' | b'\n' | b'\r')) && !matches!(byte, b'%' | b'*' | 127)
}
