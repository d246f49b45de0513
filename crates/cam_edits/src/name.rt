//! The name of a layer.

ghost use Rattle.std.specs.Prelude.{◌≡◌, string_bytes};

use std::marker::Model;

/// The name of a layer. In a script it has 1 to 32 letters, digits, `_`, `-` and `.`.
#[derive(Drop)]
pub struct Name {
    text: String,
}

impl Model for Name {
    ghost use Rattle.std.specs.Prelude.{ℕ, List, string_bytes};

    ghost Value = { List ℕ };

    ghost view = { λ n. string_bytes n.text };
}

impl Name {
    /// This text, without a copy.
    pub fn from_string(text: String) -> Name
        ensures { result ≡ string_bytes text }
    {
        Name { text }
    }

    /// The text of the name, without a copy.
    pub fn into_string(self) -> String
        ensures { string_bytes result ≡ self }
    {
        let Name { text } = self;
        text
    }

    /// The name as text.
    pub fn as_str(&self) -> &str
        ensures { result.now ≡ self.now }
    {
        self.text.as_str()
    }
}
