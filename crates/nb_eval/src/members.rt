//! The fields of a record that is made.

ghost use Rattle.std.specs.Prelude.{◌≡◌, [], IfOk, OnOk};
ghost use Rattle.nb_value.specs.Fields.{put};
ghost use Rattle.nb_eval.specs.Members.{members_of};

use nb_value::{Pairs, Text, Value};
use std::alloc::{AllocError, Global};
use std::collections::BTreeMap;
use std::marker::Model;

/// Fields that are put one after the other, which contracts see as they stand in a record.
#[derive(Debug, Drop)]
pub struct Members {
    map: BTreeMap<String, Value>,
}

impl Model for Members {
    ghost use Rattle.std.specs.Prelude.{List};
    ghost use Rattle.nb_value.specs.Fields.{fields_code};
    ghost use Rattle.nb_value.specs.contracts.value.Value as row;
    ghost use Rattle.nb_value.specs.declared.pairs.Field.{Field};
    ghost use Rattle.nb_value.specs.declared.value.Value.{Value as CellValue};
    ghost use Rattle.nb_eval.specs.Members.{members_of};

    ghost Value = { List (Field CellValue) };

    ghost coded = { fields_code row.the_row.coded };

    ghost view = { λ it. members_of it.map.entries };
}

impl Members {
    /// No fields. It takes no memory yet.
    pub fn new(alloc: Global) -> Members
        ensures { result ≡ [] }
    {
        Members {
            map: BTreeMap::new(alloc),
        }
    }

    /// Puts a value at a name, in place of what stood there, in as many comparisons as the logarithm of the number of
    /// fields. It fails only without memory.
    pub fn put(&mut self, alloc: Global, name: &Text, value: Value) -> Result<(), AllocError>
        ensures { OnOk result (self.new ≡ put (record { name = name.now; value = value }) self.old) }
    {
        let name = String::from_str(alloc, name.as_str())?;
        self.map.insert(name, value)?;
        Ok(())
    }

    /// The fields as a record has them, in time linear in their number up to a logarithm. It fails only without memory.
    pub fn into_pairs(self, alloc: Global) -> Result<Pairs<Value>, AllocError>
        ensures { IfOk result (λ pairs. pairs ≡ self) }
    {
        let Members { map } = self;
        pairs_of(alloc, map)
    }
}

fn pairs_of(alloc: Global, map: BTreeMap<String, Value>) -> Result<Pairs<Value>, AllocError>
    ensures { IfOk result (λ pairs. pairs ≡ members_of map.entries) }
{
    let mut pairs = Pairs::new(alloc);
    for (name, value) in map {
        pairs.push(Text::from_string(name), value)?;
    }
    Ok(pairs)
}
