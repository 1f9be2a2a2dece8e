// The laws of secrecy. They are about the definitions that `Core` meets, so these calls take nothing and do nothing.
ghost use Rattle.mgs_laws.specs.Secrecy.{HiddenAct, HiddenText};
ghost use Rattle.mgs_laws.specs.Purging.{Purged};

/// A hidden text has no effect on one act. Where two worlds differ only in the characters of buffers that a set of
/// users may not read, the same act of a session of one of them does the same: it has the same effect on the buffers, a
/// save's text among it, and leaves worlds that differ only so, in which the sessions of the set are the same.
pub fn hidden_act()
    ensures { HiddenAct }
{}

/// A hidden text has no effect on any run of events. Where two worlds differ only in the characters of buffers that a
/// set of users may not read, at the start and after each act while a buffer is there, the same events of their
/// sessions lead to worlds in which each of their screens is the same, and each buffer that is not hidden; and what is
/// saved is the same.
pub fn hidden_text()
    ensures { HiddenText }
{}

/// Work inside closed buffers leaves no trace. Where a set of users has none of the eight rights on some buffers, and
/// all that others do stays inside these, each screen of the set's sessions is the one that it would be had the others
/// done nothing, and so is each other buffer.
pub fn purged()
    ensures { Purged }
{}
