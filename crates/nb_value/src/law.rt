//! A law of the order of values, with nothing to run.

ghost use Rattle.std.specs.Prelude.{◌≡◌, ◌↔◌};
ghost use Rattle.std.specs.declared.cmp.Ordering.TheVariants.{Equal};
ghost use Rattle.nb_value.specs.declared.value.Value.{Value};
ghost use Rattle.nb_value.specs.Value.{value_cmp};

/// A law, with nothing to run: the order of `Value::compare` ties two values exactly where they are one value.
pub fn law_of_equal_order()
    ensures { (v : Value) → (w : Value) → (value_cmp v w ≡ Equal) ↔ (v ≡ w) }
{}
