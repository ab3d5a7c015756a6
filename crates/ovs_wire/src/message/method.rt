//! The name of a method.
ghost use Rattle.std.specs.Prelude.{◌≡◌, IfOk, string_bytes};

use ovs_json::NoMemory;
use std::marker::Model;

/// The name of a method (RFC 7047 section 4.1), which contracts see as its bytes.
#[derive(Debug, Drop)]
pub struct Method {
    name: String,
}

impl Model for Method {
    ghost use Rattle.std.specs.Prelude.{ℕ, List, string_bytes};

    ghost Value = { List ℕ };

    ghost view = { λ m. string_bytes m.name };
}

impl Method {
    /// The method of this name.
    pub fn new(name: String) -> Method
        ensures value { result ≡ string_bytes name }
    {
        Method { name }
    }

    /// Lends the name.
    pub fn as_str(&self) -> &str
        ensures value { result.now ≡ self.now }
    {
        self.name.as_str()
    }

    /// Hands the name over.
    pub(crate) fn into_string(self) -> String
        ensures value { string_bytes result ≡ self }
    {
        self.name
    }

    /// An equal method, or `NoMemory` where memory ran out.
    pub fn copy(&self) -> Result<Method, NoMemory>
        ensures value { IfOk result (λ m. m ≡ self.now) }
    {
        let name = self.name.clone()?;
        Ok(Method { name })
    }
}
