//! What holds of all runs. The function does nothing: its contract is the law.
ghost use Rattle.client_connection.specs.Run.{AnswersAreInOrder, CutsDoNotMatter};

use http_range::law_frames_grow;

/// On each connection the n-th answer counts as the one to the n-th request. That holds whatever is asked, written and lost, and whatever
/// comes, in pieces of any size. A connection goes on only after a whole answer whose head announces a piece of a file and doesn't end it.
pub fn law_answers_are_in_order()
    ensures order { AnswersAreInOrder }
    ensures one { CutsDoNotMatter }
{
    law_frames_grow();
}
