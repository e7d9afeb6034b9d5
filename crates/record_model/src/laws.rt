// What holds of the order of values. The function does nothing: its clauses are the laws.
ghost use Rattle.record_model.specs.ValueOrder.{value_cmp};
ghost use Rattle.record_model.specs.OrderLaws.{IsLinear, IsByKinds};

/// The order of values is total, only equal values stand at one place in it, and it goes by the
/// kinds of values and then by what is in them.
pub fn values_are_ordered()
    ensures linear { IsLinear value_cmp }
    ensures by_kinds { IsByKinds value_cmp }
{}
