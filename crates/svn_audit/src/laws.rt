//! The laws of reasons, and of copies that lack nothing.
ghost use Rattle.svn_audit.specs.Places.{ReasonsAreOfPlaces};
ghost use Rattle.svn_audit.specs.Sparse.{WholeCopies};

/// Why a node isn't what a history has in its place ([`untrue_paths`](crate::untrue_paths)) is what [`reason_of`](crate::reason_of) says of what is there.
pub fn reasons_are_of_places()
    ensures { ReasonsAreOfPlaces }
{}

/// Where no directory may lack an entry, a copy is true but for those that may be lacking exactly where it is true.
pub fn whole_copies_lack_nothing()
    ensures { WholeCopies }
{}
