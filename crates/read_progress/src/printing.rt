//! What is printed of exchanges on standard error: a line for each, or how far they have come.
use crate::clock::moment;
use crate::line::ExchangeLine;
use crate::network::NotedNet;
use crate::noted::{Noted, Progress, tag_of};
use cog_client::Client;
use std::fmt;
use std::rt::Clock;

/// Says what is printed of exchanges on standard error.
#[derive(Clone, Copy, Debug, PartialEq, Eq)]
pub enum Verbosity {
    /// Nothing.
    Nothing,
    /// A line for each exchange, and why there is no text.
    Each,
    /// The progress of the exchanges, as one line that is drawn over itself.
    Progress,
}

/// Holds what is printed of exchanges, the runtime that prints it, and the network that the exchanges go over.
#[derive(Drop)]
pub struct Printing<'a, 'r, R> {
    pub rt: &'a R,
    pub net: &'a NotedNet<'r, R>,
    pub verbosity: Verbosity,
}

impl fmt::Display for Progress {
    fn fmt<W: fmt::Write>(&self, f: &mut fmt::Formatter<W>) -> fmt::Result {
        write!(
            f,
            "{} of {} ranges, {} bytes",
            self.had, self.asked, self.bytes
        )
    }
}

impl<R: Eprint + Clock, P> Noted<'_, '_, R, P> {
    /// Prints the line of the last exchange, after which `client` took what came. Ignores an error of that.
    pub(crate) fn print_line(&self, client: &Client) {
        let line = ExchangeLine {
            name: str::from_utf8(client.name()).unwrap_or_default(),
            range: str::from_utf8(self.range()).unwrap_or_default(),
            status: self.status(),
            bytes: self.bytes(),
            milliseconds: moment(self.printing.rt).saturating_sub(self.since()),
            came: self.came(),
            refusal: self.printing.net.refusal(),
            before: self.tag_before(),
            after: tag_of(client),
            complete: client.complete(),
        };
        let _ = self.printing.rt.eprintln(line);
    }

    /// Draws how far all exchanges have come, over the line before. Ignores an error of that. The line isn't ended.
    pub(crate) fn draw(&self) {
        let _ = eprint!(self.printing.rt; "\rcogread: {}", self.progress());
    }

    /// Ends the line that is drawn, if one is.
    pub fn end_line(&self) {
        if self.printing.verbosity == Verbosity::Progress {
            let _ = eprintln!(self.printing.rt; "");
        }
    }
}
