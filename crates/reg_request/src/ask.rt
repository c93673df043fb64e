//! What is asked, and the request that it makes.
ghost use Rattle.std.specs.Prelude.{◌≡◌, IfOk};
ghost use Rattle.reg_desk.specs.Asked.{asked, names_in};
ghost use Rattle.reg_request.specs.Asks.{asked_by, groups_sought, sought_at};

use crate::groups::groups_of;
use reg_desk::Request;
use reg_policy::{Caller, Day, Name};
use std::alloc::{AllocError, Global};
use std::borrow::CowStr;

/// What is asked, without caller, project, day and body.
#[derive(Drop)]
pub enum Ask<'t> {
    /// The embargo day.
    Deposit(Day),
    Check,
    List,
    /// The number of a deposit, and the text that lists the groups.
    Extract(u32, Option<CowStr<'t>>),
    /// The number of a deposit.
    Withdraw(u32),
}

impl Ask<'_> {
    /// The groups of an extract; other requests have none.
    pub fn groups<'a>(&'a self, alloc: Global) -> Result<Vec<&'a [u8]>, AllocError>
        ensures { IfOk result (λ groups. names_in groups.items ≡ groups_sought self.now) }
    {
        match self {
            Ask::Extract(_, Some(text)) => groups_of(alloc, text.as_bytes()),
            _ => Ok(Vec::new(alloc)),
        }
    }

    /// The request, with a body and the groups of an extract.
    #[rattlefmt::skip]
    pub fn request<'a>(
        &'a self,
        caller: &'a Caller,
        project: &'a Name,
        day: Day,
        bytes: &'a [u8],
        groups: &'a [&'a [u8]],
    ) -> Request<'a>
        requires { names_in groups.now ≡ groups_sought self.now }
        ensures { asked result ≡ asked_by (sought_at self.now) caller.now project.now day bytes.now }
    {
        match *self {
            Ask::Deposit(embargo) => Request::Deposit { caller, project, embargo, bytes, day },
            Ask::Check => Request::Check { caller, project, bytes, day },
            Ask::List => Request::List { caller, project, day },
            Ask::Extract(number, _) => Request::Extract { caller, project, number, groups, day },
            Ask::Withdraw(number) => Request::Withdraw { caller, project, number, day },
        }
    }
}
