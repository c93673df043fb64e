//! Several connections, one after the other.
ghost use Rattle.std.specs.Prelude.{◌≡◌, OnErr};
ghost use Rattle.reg_http.specs.Connections.{AreFresh, ServesList, ServesPair};
ghost use Rattle.reg_http.specs.Tallies.{IsFresh};

use crate::connection::{Served, serve_one};
use crate::error::IoFault;
use crate::tally::Tally;
use reg_desk::Desk;
use reg_policy::{Callers, Day};
use reg_store::Keep;
use std::alloc::{AllocError, Global};
use std::io::{Read, Write};

/// Serves the connections one after the other, all of them fresh. At `Err` desk and connections are as they were.
pub fn serve_list<K: Keep, R: Read, W: Write>(
    alloc: Global,
    desk: &mut Desk<K>,
    callers: &Callers,
    day: Day,
    connections: &mut [(Tally<R>, Tally<W>)],
) -> Result<Vec<Result<Served, IoFault>>, AllocError>
    requires { AreFresh connections.old }
    ensures served { ServesList R.Read W.Write callers.now day
        connections.old connections.new desk.old desk.new result }
    ensures unserved { OnErr result ((desk.new ≡ desk.old) × (connections.new ≡ connections.old)) }
{
    let mut results = Vec::with_capacity(alloc, connections.len())?;
    for connection in connections.iter_mut() {
        let served = serve_pair(alloc, desk, callers, day, connection);
        match results.push(served) {
            Ok(()) => {}
            Err(_) => unreachable!(),
        }
    }
    Ok(results)
}

fn serve_pair<K: Keep, R: Read, W: Write>(
    alloc: Global,
    desk: &mut Desk<K>,
    callers: &Callers,
    day: Day,
    connection: &mut (Tally<R>, Tally<W>),
) -> Result<Served, IoFault>
    requires reader_fresh { IsFresh connection.old.0 }
    requires writer_fresh { IsFresh connection.old.1 }
    ensures { ServesPair R.Read W.Write callers.now day
        connection.old connection.new desk.old desk.new result }
{
    serve_one(
        alloc,
        desk,
        callers,
        day,
        &mut connection.0,
        &mut connection.1,
    )
}
