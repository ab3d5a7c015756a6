//! The id of a request and its reply.
ghost use Rattle.std.specs.Prelude.{◌≡◌, ◌≢◌, IfOk};
ghost use Rattle.serde_json.specs.Data.{null, string};
ghost use Rattle.serde_json.specs.View.{view};

use ovs_json::{NoMemory, text_json};
use serde_json::Value;
use std::alloc::Global;
use std::marker::Model;

/// The id of a request and of its reply: any JSON value but null (JSON-RPC 1.0; RFC 7047 section 4.1).
#[derive(Debug, Drop)]
pub struct Id {
    value: Value,
}

impl Model for Id {
    ghost use Rattle.std.specs.Prelude.{◌≢◌};
    ghost use Rattle.serde_json.specs.Data.{Data, null};
    ghost use Rattle.serde_json.specs.View.{view as data_of};
    ghost use Rattle.ovs_json.specs.JsonCode.{json_code};

    ghost Value = { Data };

    ghost coded = { json_code };

    ghost view = { λ i. data_of i.value };

    ghost invariant = { λ i. data_of i.value ≢ null };
}

impl Id {
    ghost use Rattle.ovs_wire.specs.Named.{named, id_of_number, number_of_id};

    /// The value as an id, or none if it is null.
    pub fn new(value: Value) -> Option<Id>
        ensures value { result ≡ named (view value) }
    {
        if value.is_null() {
            None
        } else {
            Some(Id { value })
        }
    }

    /// The id that is this number.
    pub fn from_number(number: u64) -> Id
        ensures value { result ≡ id_of_number number }
    {
        Id {
            value: Value::from(number),
        }
    }

    /// The id that is this text.
    ///
    /// # Errors
    /// `NoMemory` alone.
    pub fn from_text(alloc: Global, text: &str) -> Result<Id, NoMemory>
        ensures value { IfOk result (λ i. i ≡ string text.now) }
    {
        Ok(Id {
            value: text_json(alloc, text)?,
        })
    }

    /// The number that the id is, if it is an integer from 0 to `u64::MAX` without fraction or exponent.
    pub fn as_number(&self) -> Option<u64>
        ensures value { result ≡ number_of_id self.now }
    {
        self.value.as_u64()
    }

    /// Lends the value, which isn't null.
    pub fn as_value(&self) -> &Value
        ensures value { view result.now ≡ self.now }
        ensures named { self.now ≢ null }
    {
        &self.value
    }

    /// Hands the value over, which isn't null.
    pub fn into_value(self) -> Value
        ensures value { view result ≡ self }
        ensures named { self ≢ null }
    {
        self.value
    }

    /// An equal id, or `NoMemory` where memory ran out.
    pub fn copy(&self) -> Result<Id, NoMemory>
        ensures value { IfOk result (λ i. i ≡ self.now) }
    {
        let value = self.value.clone()?;
        Ok(Id { value })
    }
}
