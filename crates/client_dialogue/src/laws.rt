//! What holds of all histories. The function does nothing: its contract is the law.
ghost use Rattle.client_dialogue.specs.Truth.{AnswersAreOwn, HistoriesAreTrue, HistoriesBegin};

use client_connection::law_answers_are_in_order;
use cog_client::{law_answers_begin_anywhere, law_fronts_keep_agreement};

/// A dialogue that was just made has a history. Whatever comes and is lost: what a client took of an answer, whole or cut, came on a
/// connection at the place of its own request. A client that agreed with a book, of which no two files have one ETag, still agrees with
/// it. This holds where what came is read as pieces of its files.
pub fn law_histories_are_true()
    ensures begin { HistoriesBegin }
    ensures own { AnswersAreOwn }
    ensures truth { HistoriesAreTrue }
{
    law_answers_are_in_order();
    law_answers_begin_anywhere();
    law_fronts_keep_agreement();
}
