//! Laws over the definitions alone.

ghost use Rattle.ags_check.specs.Laws.{OneListUnderDictionary, ClearHeaders, ClearRows, CleanContents, OneCleanFile};

/// A file has at most one list of findings under a dictionary.
pub fn one_list_under_dictionary()
    ensures { OneListUnderDictionary }
{}

/// The fourth phase has no finding exactly where the contents keep its rules.
pub fn clear_headers()
    ensures { ClearHeaders }
{}

/// The fifth phase has no finding exactly where the contents keep its rules.
pub fn clear_rows()
    ensures { ClearRows }
{}

/// A file whose lines and rows have no finding has none at all exactly where its contents keep the rules of the
/// last two phases.
pub fn clean_contents()
    ensures { CleanContents }
{}

/// Two clean files of the same bytes under the same entries are one.
pub fn one_clean_file()
    ensures { OneCleanFile }
{}
