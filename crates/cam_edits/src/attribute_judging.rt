//! Judges edits of file attributes.

ghost use Rattle.std.specs.Prelude.{◌≡◌, ◌↔◌, IfOk, IsTrue};
ghost use Rattle.std.specs.List.{list_all};
ghost use Rattle.cam_objects.specs.Attributes.{AreAttributes};
ghost use Rattle.cam_objects.specs.Contents.{content_of};
ghost use Rattle.cam_edits.specs.AttributeEdits.{are_fields, is_field_byte, is_field_text, is_key, is_key_byte};
ghost use Rattle.cam_edits.specs.Editing.{judged_change};
ghost use Rattle.cam_edits.specs.Machinery.Judging.{MayPut};
ghost use Rattle.cam_edits.specs.Sheets.{IsSoundGerber};
ghost use Rattle.cam_edits.specs.Steps.{IsFit, attributes_after};
ghost use Rattle.cam_edits.specs.declared.edit.Change.TheVariants.{DropAttribute, SetAttribute};

use crate::fault::EditFault;
use crate::step::Step;
use cam_objects::{Attribute, Layer, is_attribute};
use cam_refusals::limits::ATTRIBUTE_LIMIT;
use cam_units::Items;

fn is_field_byte(byte: u8) -> bool
    ensures { result ≡ is_field_byte byte }
{
    byte.is_ascii_graphic() && byte != b'%' && byte != b'*'
}

fn are_key_bytes(bytes: &[u8]) -> bool
    ensures { result ≡ list_all is_key_byte bytes.now }
{
    bytes
        .iter()
        .all(|byte| is_field_byte(*byte) && *byte != b',')
}

fn are_field_bytes(bytes: &[u8]) -> bool
    ensures { result ≡ list_all is_field_byte bytes.now }
{
    bytes.iter().copied().all(is_field_byte)
}

/// Whether an edit may name a file attribute so: 1 to 255 bytes from `!` to `~`, but for the comma, `%` and `*`. Takes
/// no memory.
pub fn is_key(key: &[u8]) -> bool
    ensures { result ≡ is_key key.now }
{
    !key.is_empty() && key.len() <= 255 && are_key_bytes(key)
}

/// Whether an edit may write the fields of an attribute so, without the comma before them: 1 to 4,096 bytes from `!` to
/// `~`, but for `%` and `*`. Takes no memory.
pub fn is_field_text(text: &[u8]) -> bool
    ensures { result ≡ is_field_text text.now }
{
    !text.is_empty() && text.len() <= 4_096 && are_field_bytes(text)
}

/// Whether fields are kept so: none, or a text of them with a comma before it.
fn are_fields(fields: &[u8]) -> bool
    ensures { result ≡ are_fields fields.now }
{
    match fields.split_first() {
        None => true,
        Some((first, text)) => *first == b',' && is_field_text(text),
    }
}

/// The step that sets an attribute, which fits the layer, or the edit's first refusal.
pub(crate) fn setting(layer: &Layer, key: Items<u8>, fields: Items<u8>) -> Result<Step, EditFault>
    requires { IsSoundGerber (content_of layer.now) }
    ensures value { result ≡ judged_change (content_of layer.now) (SetAttribute key fields) }
    ensures fits { IfOk result (λ step. IsFit step (content_of layer.now)) }
{
    if !is_key(key.as_slice()) {
        return Err(EditFault::AttributeRefused);
    }
    if !are_fields(fields.as_slice()) {
        return Err(EditFault::AttributeRefused);
    }
    if let Some(k) = layer.attribute_place(key.as_slice()) {
        return Ok(Step::SetFields { k, fields });
    }
    let k = layer.attributes.len();
    if k >= ATTRIBUTE_LIMIT {
        return Err(EditFault::TooMuch);
    }
    let attribute = Attribute { name: key, fields };
    Ok(Step::PutAttribute { k, attribute })
}

/// The step that drops an attribute, which fits the layer, or the edit's first refusal.
pub(crate) fn dropping(layer: &Layer, key: &[u8]) -> Result<Step, EditFault>
    ensures value { result ≡ judged_change (content_of layer.now) (DropAttribute key.now) }
    ensures fits { IfOk result (λ step. IsFit step (content_of layer.now)) }
{
    if !is_key(key) {
        return Err(EditFault::AttributeRefused);
    }
    match layer.attribute_place(key) {
        Some(k) => Ok(Step::TakeAttribute { k }),
        None => Err(EditFault::NoAttribute),
    }
}

/// Whether a step that fits the layer leaves its attributes sound: one that it puts there may be set and is a new one, and
/// fields that it sets are fields. Takes no memory.
pub(crate) fn keeps_attributes(layer: &Layer, step: &Step) -> bool
    requires sound { AreAttributes layer.now.attributes.items }
    requires fits { IsFit step.now (content_of layer.now) }
    ensures { IsTrue result ↔ AreAttributes (attributes_after step.now layer.now.attributes.items) }
{
    match step {
        Step::PutAttribute { attribute, .. } => may_put(layer, attribute),
        Step::SetFields { k, fields } => {
            is_attribute(layer.attributes[*k].name.as_slice(), fields.as_slice())
        }
        _ => true,
    }
}

/// Whether an attribute may be put among those of the layer, none of which has its name.
fn may_put(layer: &Layer, attribute: &Attribute) -> bool
    ensures { IsTrue result ↔ MayPut layer.now.attributes.items attribute.now }
{
    let name = attribute.name.as_slice();
    if layer.attribute_place(name).is_some() {
        return false;
    }
    layer.check_attribute(name, attribute.fields.as_slice())
}
