//! Laws of identifiers, for contracts that cite them. Each function does nothing: its contract is
//! the law.
ghost use Rattle.unic_langid_impl.specs.Laws.{IdDetermines, IdHasShape, MinimalIsLeast};
ghost use Rattle.unic_langid_impl.specs.Laws.{PrintedIsRead};

/// Bytes are at most one identifier, and each of its subtags has its shape.
pub fn id_determines()
    ensures one { IdDetermines }
    ensures shape { IdHasShape }
{}

/// An identifier that is read, printed, is read as the same one.
pub fn printed_is_read()
    ensures { PrintedIsRead }
{}

/// What `minimize` answers has the maximal form that it started from, and nothing of that form's
/// language with fewer subtags has it.
pub fn minimal_is_least()
    ensures { MinimalIsLeast }
{}
