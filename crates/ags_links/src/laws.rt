//! Laws over the definitions alone.

ghost use Rattle.ags_links.specs.Laws.{RowsAreNumbered, RowNumbersAreUnique, RowsBeforeAddUp, DefinitionsHaveNoStep, OneGraph, GraphsWalkAsFiles};

/// Each number of a DATA row is that of one row of one group, and back.
pub fn rows_are_numbered()
    ensures { RowsAreNumbered }
{}

/// The number of a DATA row is that of one row alone: one group has it, at one place.
pub fn row_numbers_are_unique()
    ensures { RowNumbersAreUnique }
{}

/// The rows before the next group are those before this one, and its own; all of them are rows of the file.
pub fn rows_before_add_up()
    ensures { RowsBeforeAddUp }
{}

/// A row of a definition group has no step.
pub fn definitions_have_no_step()
    ensures { DefinitionsHaveNoStep }
{}

/// A file has at most one graph.
pub fn one_graph()
    ensures { OneGraph }
{}

/// What a file's graph reaches and shows is what the file's steps reach and show.
pub fn graphs_walk_as_files()
    ensures { GraphsWalkAsFiles }
{}
