// What holds of the meanings of fields. The functions do nothing: their
// clauses are the laws.
ghost use Rattle.field_values.specs.RoundTrip.{ReadsBack};
ghost use Rattle.field_values.specs.Exact.{FieldsAreFlat};

/// Reading what was written for a value gives the value back, with numbers as numbers and as texts,
/// for each value that some JSON means.
pub fn fields_read_back()
    ensures { ReadsBack }
{}

/// What is written for a value has no float, and nests at most three deep where some JSON means the
/// value.
pub fn fields_are_flat()
    ensures { FieldsAreFlat }
{}
