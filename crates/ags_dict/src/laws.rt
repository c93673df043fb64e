//! Laws over the definitions alone.

ghost use Rattle.ags_dict.specs.Laws.{OneDictionary, MiniIsDictionary};

/// Bytes are at most one dictionary. Bytes that lack DICT, or a heading of it, are no dictionary. No bytes lack both.
pub fn one_dictionary()
    ensures { OneDictionary }
{}

/// MINI is the dictionary of the entries that its table makes: each row makes one, and none is ignored.
pub fn mini_is_dictionary()
    ensures { MiniIsDictionary }
{}
