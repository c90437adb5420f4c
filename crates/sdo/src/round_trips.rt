//! What is made of messages is read as these.
ghost use Rattle.sdo.specs.RoundTrips.{RequestsReadBack, BlockRequestsReadBack, AnswersReadBack};

/// States that requests, block requests and answers read back as what they were made of.
pub fn messages_read_back()
    ensures requests { RequestsReadBack }
    ensures blocks { BlockRequestsReadBack }
    ensures answers { AnswersReadBack }
{}
