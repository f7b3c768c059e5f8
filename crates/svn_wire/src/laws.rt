//! What holds of tokens and items as a whole.
ghost use Rattle.svn_wire.specs.Sessions.{WrittenStays};
ghost use Rattle.svn_wire.specs.Urls.{PathsAreReadBack};
ghost use Rattle.svn_wire.specs.Laws.{TokensAreReadBack, ItemsAreReadBack, ItemsAreWhole, PiecesChangeNothing};

/// A token that was written is read as that token, whatever follows.
pub fn tokens_are_read_back()
    ensures { TokensAreReadBack }
{}

/// An item that was written is read as that item, whatever follows.
pub fn items_are_read_back()
    ensures { ItemsAreReadBack }
{}

/// What is read is one item within the limits, and takes bytes: so it prints back to the same item.
pub fn items_are_whole()
    ensures { ItemsAreWhole }
{}

/// Bytes that come later change nothing of what was read, or refused: only where more were needed they are looked at. So it doesn't matter in which
/// pieces bytes come.
pub fn pieces_change_nothing()
    ensures { PiecesChangeNothing }
{}

/// The URL that was written of a path is read as that path.
pub fn paths_are_read_back()
    ensures { PathsAreReadBack }
{}

/// What a side of a session has written is a function of the bytes that came, and is the front of what it has written once more bytes came.
pub fn written_stays<S>()
    ensures { WrittenStays S }
{}
