//! The params of a call.
ghost use Rattle.std.specs.Prelude.{◌≡◌, IfOk, map};
ghost use Rattle.serde_json.specs.View.{view};

use ovs_json::NoMemory;
use serde_json::Value;
use std::marker::Model;

/// The params of a request or a notification (RFC 7047 section 4.1), which contracts see as a list of JSON data.
#[derive(Debug, Drop)]
pub struct Params {
    values: Vec<Value>,
}

impl Model for Params {
    ghost use Rattle.std.specs.Prelude.{List, map};
    ghost use Rattle.std.specs.Coded.{coded_list};
    ghost use Rattle.serde_json.specs.Data.{Data};
    ghost use Rattle.serde_json.specs.View.{view as data_of};
    ghost use Rattle.ovs_json.specs.JsonCode.{json_code};

    ghost Value = { List Data };

    ghost coded = { coded_list json_code };

    ghost view = { λ p. map data_of p.values.items };
}

impl Params {
    /// The params that these values are.
    pub fn new(values: Vec<Value>) -> Params
        ensures value { result ≡ map view values.items }
    {
        Params { values }
    }

    /// Lends the values.
    pub fn as_slice(&self) -> &[Value]
        ensures value { map view result.now ≡ self.now }
    {
        self.values.as_slice()
    }

    /// Hands the values over.
    pub fn into_values(self) -> Vec<Value>
        ensures value { map view result.items ≡ self }
    {
        self.values
    }

    /// Equal params, or `NoMemory` where memory ran out.
    #[tactic(auto, using(crate::proofs::Lists::copies_view))]
    pub fn copy(&self) -> Result<Params, NoMemory>
        ensures value { IfOk result (λ p. p ≡ self.now) }
    {
        let values = self.values.clone()?;
        Ok(Params { values })
    }
}
