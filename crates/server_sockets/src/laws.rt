//! A law of the definitions, for the crates above. The function does nothing: its contract is the law.
ghost use Rattle.server_sockets.specs.Going.{RunsGoOn};

use cog_server::law_runs_are_answered;

/// States that each connection is answered as if it were alone, whatever turns it has, and whatever is published or added meanwhile.
pub fn law_runs_go_on()
    ensures { RunsGoOn }
{
    law_runs_are_answered();
}
