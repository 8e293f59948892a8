//! Laws of the definitions that the contracts cite.

ghost use Rattle.krb_audit.specs.Laws.{AreAllWeak, CountsFindings, IsOfItsName, KeepsEachName, MoreAreKept, OneIsKept, SelectsSame};
ghost use Rattle.krb_findings.specs.declared.finding.Finding.TheVariants.{Nostrong, Old, Weak};

/// The newest entry of a name is one of its entries, and each name in a keytab has an entry that is not old. So each
/// name keeps an entry when the old entries are removed.
pub fn each_name_keeps_an_entry()
    ensures newest { IsOfItsName }
    ensures kept { KeepsEachName }
{}

/// A hint names each weak encryption type that the entries have, and no other.
pub fn hints_name_each_weak_etype()
    ensures { AreAllWeak }
{}

/// The numbers of weak and old entries, and of names that have weak keys alone, are those of the findings of a check,
/// whatever it is asked for.
pub fn counts_are_of_findings()
    ensures weak { CountsFindings Weak }
    ensures old { CountsFindings Old }
    ensures weak_names { CountsFindings Nostrong }
{}

/// To keep one kvno of each name is to select the old entries, and to keep more selects nothing else.
pub fn keeping_more_removes_less()
    ensures one { OneIsKept }
    ensures more { MoreAreKept }
{}

/// The entries that repeat an earlier one are those for which a check finds that, whatever it is asked for.
pub fn selected_doubles_are_same()
    ensures { SelectsSame }
{}
