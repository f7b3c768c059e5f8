//! What holds of a connection as a whole.
ghost use Rattle.svn_ask.specs.Laws.{PiecesJoin, AnswersAreSaid, ConversationsGoOn};

/// What comes of bytes in two pieces is what comes of them in one.
pub fn pieces_join()
    ensures { PiecesJoin }
{}

/// What is heard are the answers that the items have, each to its question, in the order of the questions, however many are open at once.
pub fn answers_are_said()
    ensures { AnswersAreSaid }
{}

/// Lists of questions over one connection, one after the other, have together the answers that the items of all bytes have: what is heard from the
/// first list on, where each further one is begun once all before it is answered.
pub fn conversations_go_on()
    ensures { ConversationsGoOn }
{}
