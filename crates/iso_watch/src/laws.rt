// Laws over the definitions, as contracts of functions that do nothing.
ghost use Rattle.iso_watch.specs.WatchersLaws.{EndsOnce, ToldInTurn, ToldNone};

/// A page ends after one number of directions alone; to be told of some and then of others is to be told
/// of them all; and to be told of none changes nothing.
pub fn law_of_told_pages()
    ensures once { EndsOnce }
    ensures turn { ToldInTurn }
    ensures none { ToldNone }
{}
