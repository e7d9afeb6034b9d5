// What holds of bytes that are read, and of routes. The functions do nothing: their clauses are the
// laws.
ghost use Rattle.http_front.specs.Laws.{SayOne, CutOne, StaySaid, WaitUnsaid, NothingWaits, HeadsStay, FaultsSay, FieldsFit};
ghost use Rattle.http_front.specs.Routes.{SpelledAreRouted, RoutedAreSpelled};

/// What is read of the bytes of a connection does not depend on the pieces in which they come: they
/// say one request, or one reason why there is none, and bytes that come behind do not change it.
pub fn bytes_have_one_reading()
    ensures one { SayOne }
    ensures cut { CutOne }
    ensures stays { StaySaid }
    ensures waits { WaitUnsaid }
    ensures nothing { NothingWaits }
    ensures heads { HeadsStay }
    ensures faults { FaultsSay }
    ensures fields { FieldsFit }
{}

/// The paths that have routes are those that are UTF-8, are formed as the service's paths are, and are
/// served under their method.
pub fn routes_are_spelled_paths()
    ensures routed { SpelledAreRouted }
    ensures spelled { RoutedAreSpelled }
{}
