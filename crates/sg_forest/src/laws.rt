// Laws.
ghost use Rattle.sg_forest.specs.Kept.{RewritesAreKept, ParsersAreKept};

/// A rewrite with whose values nothing is wrong is in the log paths, where its name has a value, as it has where it
/// was read.
pub fn rewrites_are_kept()
    ensures { RewritesAreKept }
{}

/// A parser with whose values nothing is wrong is in the log paths as it is written.
pub fn parsers_are_kept()
    ensures { ParsersAreKept }
{}
