//! The routes of the register, with what each method asks of them.
ghost use Rattle.std.specs.Prelude.{◌≡◌, IfOk, [], unwrap_or};
ghost use Rattle.matchit.specs.Params.{named, AllText};
ghost use Rattle.reg_http.specs.Agree.{IsAsDefined};
ghost use Rattle.reg_http.specs.Routes.{page_in, method_of, table, taken_by, verb_in};
ghost use Rattle.reg_http.specs.Views.{found_page};

use crate::error::Refusal;
use matchit::{InsertError, Params, Router};
use reg_policy::Verb;
use std::alloc::Global;

/// The page of a path.
pub(crate) fn find<'p>(alloc: Global, path: &'p str) -> Result<FoundPage<'p>, Refusal>
    ensures { IsAsDefined found_page (page_in path.now) result }
{
    match router(alloc) {
        Ok(routes) => found_in(&routes, path),
        Err(_) => Err(Refusal::OutOfMemory),
    }
}

/// The page of a path, with what its route's parameters took.
#[derive(Clone, Copy, Debug)]
pub(crate) struct FoundPage<'p> {
    pub(crate) page: Page,
    /// The project's part of the path.
    pub(crate) project: &'p str,
    /// The number's part, empty where the route has none.
    pub(crate) number: &'p str,
}

/// What each method asks of a route.
#[derive(Clone, Copy, Debug, PartialEq, Eq)]
pub(crate) struct Page {
    pub(crate) post: Option<Verb>,
    pub(crate) get: Option<Verb>,
    pub(crate) delete: Option<Verb>,
}

/// The router of the register: the table of routes, methods and verbs.
#[rattlefmt::skip]
fn router(alloc: Global) -> Result<Router<Page>, InsertError>
    ensures { IfOk result (λ routes. routes ≡ table) }
{
    let mut routes = Router::new(alloc);
    routes.insert("/v1/projects/{project}/check",
        Page { post: Some(Verb::Check), get: None, delete: None })?;
    routes.insert("/v1/projects/{project}/deposits",
        Page { post: Some(Verb::Deposit), get: Some(Verb::List), delete: None })?;
    routes.insert("/v1/projects/{project}/deposits/{number}",
        Page { post: None, get: Some(Verb::Extract), delete: Some(Verb::Withdraw) })?;
    Ok(routes)
}

/// The page of a path, by the table.
fn found_in<'p>(routes: &Router<Page>, path: &'p str) -> Result<FoundPage<'p>, Refusal>
    requires { routes.now ≡ table }
    ensures { IsAsDefined found_page (page_in path.now) result }
{
    match routes.at(path) {
        Ok(found) => Ok(FoundPage {
            page: *found.value,
            project: part(&found.params, "project"),
            number: part(&found.params, "number"),
        }),
        Err(_) => Err(Refusal::NoRoute),
    }
}

/// What the parameter of this name took, or nothing where there is none.
fn part<'p>(params: &Params<'_, 'p>, name: &str) -> &'p str
    requires { AllText (taken_by params.now) }
    ensures { result.now ≡ unwrap_or (named name.now (taken_by params.now)) [] }
{
    match params.get(name) {
        Some(value) => value,
        None => "",
    }
}

impl Page {
    /// What this method asks of the page.
    pub(crate) fn verb(self, method: &[u8]) -> Result<Verb, Refusal>
        ensures { result ≡ verb_in self method.now }
    {
        self.by_method(method).ok_or(Refusal::Method)
    }

    fn by_method(self, method: &[u8]) -> Option<Verb>
        ensures { result ≡ method_of self method.now }
    {
        if method == b"POST".as_slice() {
            self.post
        } else if method == b"GET".as_slice() {
            self.get
        } else if method == b"DELETE".as_slice() {
            self.delete
        } else {
            None
        }
    }
}
