//! Worked rows of the definitions, as a law. The check of this crate proves it by computing, so there is nothing to run.
ghost use Rattle.http_range_tests.specs.Rows.{AreParts, part_rows, TextRows, HeadRows, MessageRows, AreCases, case_rows, condition_rows, StreamRows};

use http_range::law_messages_stay;

/// The definitions give the worked rows. These are the parts that values of Range name, the texts of heads and what they announce, and what
/// is read of a message. They are also answers, answers to conditions, and the messages of a stream.
pub fn rows_hold()
    ensures parts { AreParts part_rows }
    ensures texts { TextRows }
    ensures heads { HeadRows }
    ensures messages { MessageRows }
    ensures answers { AreCases case_rows }
    ensures conditions { AreCases condition_rows }
    ensures streams { StreamRows }
{
    law_messages_stay();
}
