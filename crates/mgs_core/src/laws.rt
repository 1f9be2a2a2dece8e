// Laws of what is done. They are about the definitions that `Core` meets, so these calls take nothing and do nothing.
ghost use Rattle.mgs_laws.specs.Holder.{KillStays, RulesKeepKills};
ghost use Rattle.mgs_laws.specs.Lawful.{OutcomesAreLawful, SettledStays};

/// Settling is done once: what is settled stays as it is when it settles again.
pub fn settled_stays()
    ensures { SettledStays }
{}

/// An effect comes only with its right. A buffer is edited only by who may write or append to it, its flag is cleared
/// and it is saved only by who may read and write it, its list, its owners and the buffer itself go only by who has the
/// right for that, and a buffer is created only under a name that none has. So nothing has to ask for rights again when
/// an effect is carried out.
pub fn outcomes_are_lawful()
    ensures { OutcomesAreLawful }
{}

/// A kill stays its holder's. Whatever the other sessions do, and whatever rights are taken meanwhile, a session's kill
/// buffer stays what it is: only its own events can change it. And an act that changes an access list, an owner or an owning group, that
/// creates a buffer or kills one, changes no kill buffer at all, that of the acting session neither.
pub fn kill_stays()
    ensures others { KillStays }
    ensures rules { RulesKeepKills }
{}
