//! Which faults of a conversion have a cause. Nothing here does anything.

ghost use Rattle.slub_law_faults.specs.Settled.{FaultsExcludeEachOther, FaultsExcludeTraces, GroupsAreUnique, TextsDifferInComments, TracesDifferInComments};

/// The caches of a recording make one grouping on so many CPUs.
pub fn groups_are_unique()
    ensures { GroupsAreUnique }
{}

/// Where there is a trace, no fault of the CPUs, of the group or of the objects has a cause.
pub fn faults_exclude_traces()
    ensures { FaultsExcludeTraces }
{}

/// Two faults of one conversion that have a cause, and aren't want of memory, are of one kind. They
/// tell the same numbers, but for the length of a text.
pub fn faults_exclude_each_other()
    ensures { FaultsExcludeEachOther }
{}

/// Two traces of one conversion have the same lines, but for their comments.
pub fn traces_differ_in_comments()
    ensures { TracesDifferInComments }
{}

/// Two texts of one conversion, however long, differ in their comments alone.
pub fn texts_differ_in_comments()
    ensures { TextsDifferInComments }
{}
