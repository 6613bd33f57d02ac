//! Laws of the definitions, for the crates above. Each function does nothing: its contract is the law.
ghost use Rattle.std.specs.Prelude.{◌≤◌, List, ℕ};
ghost use Rattle.http_range.specs.Book.{Catalogue, Publication};
ghost use Rattle.cog_client.specs.Progress.{answer_room};
ghost use Rattle.cog_client.specs.Serves.{Serves};
ghost use Rattle.cog_client.specs.Transport.{OrLost, UpTo};
ghost use Rattle.transports.specs.InMemory.{Has, IsAnswerAbout};

use cog_client::law_whole_answers_bring_on;

/// A server in memory serves whatever a client asks for of a file that it has. So does each front of its answers that has room for a head
/// and for as many blocks as are asked for at once.
pub fn law_servers_in_memory_serve()
    ensures whole { (catalogue : Catalogue) (name : List ℕ) (p : Publication) → Has catalogue name p
        → Serves (OrLost (IsAnswerAbout catalogue name)) p }
    ensures fronts { (catalogue : Catalogue) (name : List ℕ) (p : Publication) (n : ℕ) → answer_room ≤ n
        → Has catalogue name p → Serves (UpTo n (IsAnswerAbout catalogue name)) p }
{
    law_whole_answers_bring_on();
}
