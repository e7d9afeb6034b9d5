// What holds of the meanings of operations. The functions do nothing: their clauses are the laws.
ghost use Rattle.modify_ops.specs.RoundTrip.{OpsReadBack, RequestsReadBack};

/// Reading what was written for operations gives them back, for each that some JSON means.
pub fn ops_read_back()
    ensures { OpsReadBack }
{}

/// Reading what was written for the operations of a request, as `read_ops` does, gives them back, for
/// each request that some JSON means.
pub fn requests_read_back()
    ensures { RequestsReadBack }
{}
