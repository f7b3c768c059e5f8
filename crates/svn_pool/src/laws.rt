//! Laws that follow from what the calls do. Each function does nothing: its contract is the law.
ghost use Rattle.svn_pool.specs.Laws.{LeafGoesAlone, OldIsGone, OldStaysOld};

/// A serial is never given again: a call with one whose pool is gone returns `Gone` or `None`, also after every later call.
pub fn old_serials_stay_old()
    ensures gone { OldIsGone }
    ensures stays { OldStaysOld }
{}

/// Destroying a pool without children removes that pool alone.
pub fn leaf_goes_alone()
    ensures { LeafGoesAlone }
{}
