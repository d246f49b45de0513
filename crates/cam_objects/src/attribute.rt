//! File attributes.

use cam_units::Items;

/// A file attribute of a layer (Gerber Layer Format Specification, "File attributes (TF)"): of `%TF` name fields `*%`
/// the name, a text without comma, and its fields, each with the comma before it.
#[derive(Clone, Debug, Drop)]
pub struct Attribute {
    pub name: Items<u8>,
    pub fields: Items<u8>,
}
