//! Policies and callers that are nested deep.

use reg_policy::{Callers, CallersError, Policy, PolicyError};
use std::alloc::Global;
use std::test::Fail;

/// A value or a key one level deep, and what a level more adds: the beginning, what is added after it, the middle, what
/// is added after that.
struct Shape {
    start: &'static str,
    open: &'static str,
    middle: &'static str,
    close: &'static str,
}

/// Arrays in arrays, tables in tables, and a key of parts.
static SHAPES: [Shape; 3] = [
    Shape {
        start: " = [",
        open: "[",
        middle: "]",
        close: "]",
    },
    Shape {
        start: " = {a = ",
        open: "{a = ",
        middle: "1}",
        close: "}",
    },
    Shape {
        start: "",
        open: ".a",
        middle: " = 1",
        close: "",
    },
];

/// How many levels more, and what both readers answer of each shape.
static DEPTHS: [(usize, PolicyError, CallersError); 3] = [
    (1, PolicyError::BadValue, CallersError::BadValue),
    (79, PolicyError::BadValue, CallersError::BadValue),
    (80, PolicyError::Syntax, CallersError::Syntax),
];

/// A shape with so many levels more, after the name of an array.
fn nested(alloc: Global, array: &str, shape: &Shape, more: usize) -> Result<String, Fail> {
    let open = shape.open.repeat(alloc, more)?;
    let close = shape.close.repeat(alloc, more)?;
    let (start, middle) = (shape.start, shape.middle);
    Ok(format!(in alloc; "{array}{start}{open}{middle}{close}")?)
}

/// Whether a policy of a shape is refused so.
fn policy_says(alloc: Global, shape: &Shape, more: usize, want: PolicyError) -> Result<bool, Fail> {
    let text = nested(alloc, "rule", shape, more)?;
    Ok(Policy::read(alloc, &text).err() == Some(want))
}

/// Whether callers of a shape are refused so.
fn callers_say(
    alloc: Global,
    shape: &Shape,
    more: usize,
    want: CallersError,
) -> Result<bool, Fail> {
    let text = nested(alloc, "caller", shape, more)?;
    Ok(Callers::read(alloc, &text).err() == Some(want))
}

/// Whether both readers answer so of a shape with so many levels more, for each number of them.
fn goes_deep(alloc: Global, shape: &Shape) -> Result<bool, Fail> {
    for (more, policy, callers) in &DEPTHS {
        if !policy_says(alloc, shape, *more, *policy)? {
            return Ok(false);
        }
        if !callers_say(alloc, shape, *more, *callers)? {
            return Ok(false);
        }
    }
    Ok(true)
}

/// Values are taken up to 80 deep, and keys of up to 80 parts; what goes deeper is no TOML.
#[test]
fn texts_that_go_deep(rt: HostRuntime) -> Result<(), Fail> {
    for shape in &SHAPES {
        assert!(rt; goes_deep(rt.alloc(), shape)?);
    }
    Ok(())
}
