//! JSON values that structs may hold.

ghost use Rattle.std.specs.Prelude.{◌≡◌, ◌↔◌, IfOk, IsTrue};
ghost use Rattle.serde_json.specs.View.{view};
ghost use Rattle.ovs_json.specs.JsonCode.{json_code};
ghost use Rattle.ovs_json.specs.Same.{is_same};

use crate::no_memory::NoMemory;
use crate::same::same_json;
use serde_json::Value;
use std::marker::Model;

/// A JSON value, which contracts see as its data.
#[derive(Debug, Drop)]
pub struct Json {
    value: Value,
}

impl Model for Json {
    ghost use Rattle.serde_json.specs.Data.{Data};
    ghost use Rattle.serde_json.specs.View.{view as data_of};
    ghost use Rattle.ovs_json.specs.JsonCode.{json_code};

    ghost Value = { Data };

    ghost coded = { json_code };

    ghost view = { λ j. data_of j.value };
}

impl Json {
    /// The JSON value as one that contracts see as its data.
    pub fn new(value: Value) -> Json
        ensures value { result ≡ view value }
    {
        Json { value }
    }

    /// Lends the value.
    pub fn as_value(&self) -> &Value
        ensures value { view result.now ≡ self.now }
    {
        &self.value
    }

    /// Hands the value over.
    pub fn into_value(self) -> Value
        ensures value { view result ≡ self }
    {
        self.value
    }

    /// An equal value, or `NoMemory` where memory ran out.
    pub fn copy(&self) -> Result<Json, NoMemory>
        ensures value { IfOk result (λ j. j ≡ self.now) }
    {
        let value = self.value.clone()?;
        Ok(Json { value })
    }

    /// Whether the two are equal, as `same_json` compares them.
    pub fn same(&self, other: &Json) -> bool
        ensures value { result ≡ is_same json_code self.now other.now }
        ensures same { IsTrue result ↔ (self.now ≡ other.now) }
    {
        same_json(&self.value, &other.value)
    }
}
