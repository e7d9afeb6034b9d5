// What is wanted of requests.
use ck_base::{Route, UserName};
use error_replies::ServerError;
use wire_calls::Call;

/// Who makes a request, and of which route.
#[derive(Debug, Drop)]
pub struct Sender {
    pub route: Route,
    pub user: UserName,
}

/// What is wanted of a request.
#[derive(Debug, Drop)]
pub enum Want {
    /// It is refused before anything is asked.
    Refused(ServerError),
    /// A call.
    Called(Call),
}
