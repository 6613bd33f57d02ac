//! Why `cogread` has no text of a file.
ghost use Rattle.std.specs.Prelude.{◌≡◌};
ghost use Rattle.programs.specs.Status.{HasStatus, exit_by_last, exit_of_last};

use crate::exit::Exit;
use read_command::ReadError;
use read_progress::Came;
use std::io;

/// Says why there is no text of a file, and what the last exchange brought.
#[derive(Drop)]
pub struct Unread {
    pub error: ReadError,
    pub came: Came,
}

impl Unread {
    /// Returns the fault of the program. For a URL that of `NoReport`, after all of `requests` requests, says what the last one brought.
    /// `refusal` is why the last connection wasn't made, if it wasn't.
    pub fn exit(&self, refusal: Option<io::Error>, requests: u32, is_url: bool) -> Exit
        ensures { result ≡ exit_by_last self.now.error is_url (exit_of_last self.now.came refusal requests) }
    {
        match self.error {
            ReadError::NoReport if is_url => no_report(&self.came, refusal, requests),
            error => Exit::from(error),
        }
    }
}

/// Returns the fault where no report stands after all of `requests` requests to a URL. `came` is what the last one brought. `refusal` is
/// why the last connection wasn't made, if it wasn't.
fn no_report(came: &Came, refusal: Option<io::Error>, requests: u32) -> Exit
    ensures is { result ≡ exit_of_last came.now refusal requests }
    ensures status { HasStatus result 4 }
{
    match (came, refusal) {
        (_, Some(error)) => Exit::NoConnection(error),
        (Came::Unsent | Came::Nothing, None) => Exit::NoAnswer,
        (Came::NotUsed(why), None) => Exit::NotUsed(*why),
        (Came::Brought(_, _), None) => Exit::TooFewRequests(requests),
    }
}
