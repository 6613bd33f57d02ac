//! Laws of the definitions, for the crates above. Each function only names the laws that it rests on: its contract is
//! the law.
ghost use Rattle.http_range.specs.Laws.{HeadsGrow, FramesGrow, FrontsAreRead, ChecksAreRead, HonestyIsKept, ContentRangesAreForms, TagsTellPublications, PublicationTagsAreKept, AnswersAreSent, AnswersAreUnique, StreamsAreAnsweredOnce, MessagesStay, MessagesAreTested, HeadsAreMessages, HeadsStay, ClientsAreAnswered, RequestsAreAnswered, ChecksAreAnswered, ClientsAreServed, OpenClientsAreServed, ChecksAreServed, RequestsAreShort, PublishReplaces, PublishedIsNamed};
ghost use Rattle.http_fields.specs.Laws.{TagsAreQuoted};

use http_fields::laws::law_parts_are_read;

/// States that different epochs or numbers give different ETags, and that a client keeps each of them.
pub fn law_tags_tell_publications()
    ensures apart { TagsTellPublications }
    ensures kept { PublicationTagsAreKept }
{
    law_parts_are_read();
}

/// States that a message, or its head, stays as it was found when bytes follow. A head that was printed is found.
/// Reading backwards finds the end of a message.
pub fn law_messages_stay()
    ensures messages { MessagesStay }
    ensures heads { HeadsStay }
    ensures printed { HeadsAreMessages }
    ensures tested { MessagesAreTested }
{}

/// States that a message has one answer of a catalogue, and a stream one list of answers.
pub fn law_answers_are_unique()
    ensures message { AnswersAreUnique }
    ensures stream { StreamsAreAnsweredOnce }
{}

/// States that a server's answer has a tag that is kept, positions that lie in the file, and numbers of 64 bits.
pub fn law_answers_are_sent()
    ensures { AnswersAreSent }
{}

/// States what a server answers to the text of a client's request, and of its check. The text may be a message, or the
/// front of a stream.
pub fn law_clients_are_answered()
    ensures followed { ClientsAreAnswered }
    ensures requests { RequestsAreAnswered }
    ensures checks { ChecksAreAnswered }
    ensures served { ClientsAreServed }
    ensures open_served { OpenClientsAreServed }
    ensures checks_served { ChecksAreServed }
{
    law_parts_are_read();
}

/// Bounds the texts of a client's request and check.
pub fn law_requests_are_short()
    ensures { RequestsAreShort }
{}

/// States what stands under a name after a publication, and that it has that name.
pub fn law_publications_replace()
    ensures replaces { PublishReplaces }
    ensures named { PublishedIsNamed }
{}

/// States that an answer of a server is honest, and stays so where it is cut and where the book grows.
pub fn law_honesty_is_kept()
    ensures { HonestyIsKept }
{}

/// States that what is read of an answer's head stays when bytes follow.
pub fn law_heads_grow()
    ensures { HeadsGrow }
{}

/// States that the end of an answer stays where it is when bytes follow.
pub fn law_frames_grow()
    ensures { FramesGrow }
{}

/// States what is read of a server's answer, whole or cut.
pub fn law_fronts_are_read()
    ensures answers { FrontsAreRead }
    ensures checks { ChecksAreRead }
{
    law_parts_are_read();
}

/// States that the functions that read tags and Content-Range take the forms of the standard. Of Content-Range they
/// take the form of this profile: `bytes a-b/l`.
pub fn law_values_have_forms()
    ensures tags { TagsAreQuoted }
    ensures ranges { ContentRangesAreForms }
{
    law_parts_are_read();
}
