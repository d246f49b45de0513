//! The path of a file.

ghost use Rattle.std.specs.Prelude.{◌≡◌, string_bytes};

use std::marker::Model;

/// The path of a file. In a script it has 1 to 255 bytes from `!` to `~`.
#[derive(Drop)]
pub struct FilePath {
    text: String,
}

impl Model for FilePath {
    ghost use Rattle.std.specs.Prelude.{ℕ, List, string_bytes};

    ghost Value = { List ℕ };

    ghost view = { λ p. string_bytes p.text };
}

impl FilePath {
    /// This text, without a copy.
    pub fn from_string(text: String) -> FilePath
        ensures { result ≡ string_bytes text }
    {
        FilePath { text }
    }

    /// The text of the path, without a copy.
    pub fn into_string(self) -> String
        ensures { string_bytes result ≡ self }
    {
        let FilePath { text } = self;
        text
    }

    /// The path as text.
    pub fn as_str(&self) -> &str
        ensures { result.now ≡ self.now }
    {
        self.text.as_str()
    }
}
