// Laws of lists of passes, on a function that makes nothing.
ghost use Rattle.lucid_pass.specs.Through.{ListsKeepNodes, ListsReplace};

/// The result of a list of passes on valid code may replace it. If each pass keeps nodes after their reads, the list does so.
pub fn lists_keep_the_laws()
    ensures replaces { ListsReplace }
    ensures nodes { ListsKeepNodes }
{}
