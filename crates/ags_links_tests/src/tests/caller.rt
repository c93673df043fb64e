//! The caller in README.md of ags_links.

ghost use Rattle.std.specs.Prelude.{◌≡◌, length, IfOk};
ghost use Rattle.ags_links.specs.Walks.{AreShownUnder};

use ags_links::{Graph, shown};
use std::alloc::{AllocError, Global};
use std::test::Fail;

/// Which rows a reader is shown, who may see those that are marked.
pub fn shown_rows(alloc: Global, graph: &Graph, may_see: &[bool]) -> Result<Vec<bool>, AllocError>
    requires { length may_see.now ≡ graph.now.rows }
    ensures { IfOk result (λ marks. AreShownUnder graph.now may_see.now marks.items) }
{
    let (marks, _steps) = shown(alloc, graph, may_see)?;
    Ok(marks)
}

/// Row 1 is a row of row 0, and is not shown without it.
#[test]
fn rows_are_shown_with_their_parents(rt: HostRuntime) -> Result<(), Fail> {
    let steps = Vec::from_slice(rt.alloc(), &[(1, 0)])?;
    let graph = Graph::new(2, steps).ok_or("graph")?;
    if graph.rows() == 2 {
        let marks = shown_rows(rt.alloc(), &graph, &[false, true])?;
        assert!(rt; marks.as_slice() == [false, false].as_slice());
    }
    Ok(())
}
