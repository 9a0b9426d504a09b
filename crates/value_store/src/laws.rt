//! What holds of all values.

ghost use Rattle.std.specs.Prelude.{◌≡◌, ℕ, List};
ghost use Rattle.zw_base.specs.declared.property.Property.{Property};
ghost use Rattle.value_store.specs.Values.{Values, missing_of, releasing, reserving};

/// What was reserved is undone where those properties are released that were missing before.
pub fn what_is_released_is_undone()
    ensures { (values : Values) (node : ℕ) (properties : List Property) →
        releasing (reserving values node properties) node (missing_of values node properties) ≡ values }
{}
