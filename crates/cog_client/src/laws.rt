//! Laws of the definitions, for the crates above. Each function does nothing: its contract is the law.
ghost use Rattle.std.specs.Prelude.{ℕ, List, IfSome};
ghost use Rattle.tiff_dir.specs.Needs.{IsEndOf};
ghost use Rattle.tiff_dir.specs.Query.{needs};
ghost use Rattle.cog_client.specs.Client.{AgreementIsSeen, query_of, to_come, ClientState, Knows};
ghost use Rattle.cog_client.specs.Report.{TruthIsTold};
ghost use Rattle.cog_client.specs.FedClient.{AnswersBeginAnywhere, FrontsKeepAgreement};
ghost use Rattle.cog_client.specs.Fed.{CaseIsOfHead, CutsAreStored, EdgesAreStored, EndTells, LeavesByHead, PartsAreNotStored};
ghost use Rattle.cog_client.specs.Progress.{AnswersReport, AskingLeavesAsMuch, CostIsMost, DeliveryReports, GoingOnLeavesNoMore, IsOwnAnswer, IsServed, NeededAreAsked, OneRangeIsAsked, OpeningLeavesCost, OwnAnswersAreServed, OwnFrontsAreServed, RequestReports, ServedBringOn};

use cog_reader::{
    law_end_is_wanted, law_lengths_are_known, law_looks_at_one_range, law_nothing_comes,
};
use http_range::{
    law_clients_are_answered, law_fronts_are_read, law_heads_grow, law_publications_replace,
};
use range_cache::{
    law_missing_is_exact, law_parts_bring_blocks, law_pieces_bring_blocks, law_stored_are_held,
    law_stored_stay,
};

/// States that what a client still needs of a file for its query is the end of what the query needs of it.
pub fn law_end_is_needed()
    ensures { (c : ClientState) (f : List ℕ) → Knows f c → IfSome (query_of c) (λ q. IsEndOf (to_come c f) (needs f q)) }
{
    law_end_is_wanted();
    law_nothing_comes();
}

/// Bounds what is left for a client to get, in blocks. It is at most what its query costs, and never grows when the
/// client goes on.
pub fn law_left_never_grows()
    ensures cost { CostIsMost }
    ensures opening { OpeningLeavesCost }
    ensures goes { GoingOnLeavesNoMore }
    ensures asks { AskingLeavesAsMuch }
{
    law_end_is_needed();
    law_missing_is_exact();
}

/// States that the report stands where nothing is left, after a request, and after an answer that isn't ignored.
pub fn law_nothing_left_is_reported()
    ensures request { RequestReports }
    ensures delivery { DeliveryReports }
{
    law_lengths_are_known();
    law_missing_is_exact();
}

/// States that a client with a revision asks for missing blocks, each of which touches a range that its query needs.
/// Where it looks no block ahead, all of them are of one range.
pub fn law_needed_are_asked()
    ensures needed { NeededAreAsked }
    ensures one { OneRangeIsAsked }
{
    law_looks_at_one_range();
    law_end_is_needed();
    law_lengths_are_known();
}

/// States that an answer with all that a client asks for is never ignored. Less is left after it where the client has
/// the file's ETag. A client without a revision reads the server's from then on, and so does one with another ETag. For
/// the latter, any front of the whole file is enough. This server's answers are such, and so are their fronts of 4,096
/// bytes and 65 blocks.
pub fn law_whole_answers_bring_on()
    ensures served { ServedBringOn }
    ensures own { OwnAnswersAreServed }
    ensures fronts { OwnFrontsAreServed }
{
    law_heads_grow();
    law_lengths_are_known();
    law_clients_are_answered();
    law_fronts_are_read();
    law_publications_replace();
    law_missing_is_exact();
    law_pieces_bring_blocks();
    law_stored_stay();
}

/// States that the report to a query stands after at most one answer more than the query costs. Each answer is as in
/// `law_whole_answers_bring_on`, of any server or of this one. The client may look ahead by another number of blocks
/// each time.
pub fn law_whole_answers_report()
    ensures served { AnswersReport IsServed }
    ensures own { AnswersReport IsOwnAnswer }
{
    law_whole_answers_bring_on();
    law_left_never_grows();
    law_nothing_left_is_reported();
    law_fronts_are_read();
}

/// States that all that a caller sees of a client that agrees with a book is of one publication in it.
pub fn law_agreement_is_seen()
    ensures { AgreementIsSeen }
{
    law_lengths_are_known();
}

/// States that a report is true if it says the same as a true one, as a copy does.
pub fn law_equal_reports_are_true()
    ensures { TruthIsTold }
{}

/// States that an answer in pieces is taken by its head, and by its body as far as it has come.
pub fn law_answers_come_in_pieces()
    ensures head { CaseIsOfHead }
    ensures leaves { LeavesByHead }
    ensures told { EndTells }
    ensures edges { EdgesAreStored }
    ensures cuts { CutsAreStored }
    ensures parts { PartsAreNotStored }
{
    law_parts_bring_blocks();
}

/// States that an answer begins with the next bytes that are fed, where nothing of another one is kept. So `feed` and
/// `end` need no `begin`.
pub fn law_answers_begin_anywhere()
    ensures { AnswersBeginAnywhere }
{
    law_heads_grow();
}

/// States that a client agrees with a book in the midst of an answer, if it did before. What came of the answer has to
/// be of files of the book. So it does after a call that drops the answer, as `request` and `open` do: each keeps what
/// the client agrees with.
pub fn law_fronts_keep_agreement()
    ensures { FrontsKeepAgreement }
{
    law_fronts_are_read();
    law_stored_are_held();
}
