//! What answers are made from.
use crate::additions::Additions;
use crate::server::Server;

/// What answers are made from: the files of a server, and what is added to each answer.
#[derive(Clone, Copy)]
pub struct Service<'a> {
    /// The server whose files are served.
    pub server: &'a Server,
    /// What is added to each answer.
    pub additions: Additions<'a>,
}

impl<'a> Service<'a> {
    ghost use Rattle.std.specs.Prelude.{◌≡◌};
    ghost use Rattle.cog_server.specs.Additions.{plain};
    ghost use Rattle.cog_server.specs.Service.{added_of, service_of};

    /// Makes a service that adds nothing.
    pub fn plain(server: &'a Server) -> Self
        ensures { service_of result ≡ plain server.now.catalogue }
    {
        Service {
            server,
            additions: Additions::nothing(),
        }
    }

    /// Makes a service that adds `additions`.
    pub fn new(server: &'a Server, additions: Additions<'a>) -> Self
        ensures { service_of result ≡ record { catalogue = server.now.catalogue; added = added_of additions.entry } }
    {
        Service { server, additions }
    }
}
