//! Runs over lines whose reader or writer fails at each of its calls.

use super::is_whole;
use super::streams::{FailingReader, FailingWriter, Fault, WAYS, is_own};
use gix_url::lines::{RunError, run};
use std::process::Abort;
use std::test::Fail;

/// The input of the runs, and the expected output.
static INPUT: &[u8] = b"/a\nhttp://h:0/\nssh+git:///p\nhttp://h";

static ANSWER: &[u8] =
    b"settled\t/a\nrefused\tBadUrl BadPort\nunsettled\tssh\nsettled\thttp://h/\n";

/// A writer for the expected output that fails after this number of calls.
fn writer(at_most: usize, calls: usize, way: Option<Fault>) -> FailingWriter<'static> {
    let left = Some(ANSWER);
    FailingWriter {
        left,
        at_most,
        calls,
        way,
    }
}

/// A run whose reader fails after this number of calls, which don't return the whole input.
fn is_read(rt: &(impl Abort + AllocGlobal), calls: usize, fault: Fault) -> Result<(), Fail> {
    let bytes = INPUT;
    let mut input = FailingReader {
        bytes,
        calls,
        fault,
    };
    let mut out = writer(1, usize::MAX, None);
    match run(rt.alloc(), &mut input, &mut out) {
        Err(RunError::Read(error)) => is_own(rt, &error, Some(fault)),
        _ => Err(Fail::from("the reader's fault is lost")),
    }
}

#[test]
fn a_reader_fails_at_each_call(rt: HostRuntime) -> Result<(), Fail> {
    for &way in WAYS.as_slice() {
        let Some(fault) = way else {
            continue;
        };
        for calls in 0..=INPUT.len() {
            is_read(&rt, calls, fault)?;
        }
    }
    Ok(())
}

/// Runs over the input with a writer that fails at each of its calls in turn, until the output is written before the
/// failure.
fn is_answered(
    rt: &(impl Abort + AllocGlobal),
    at_most: usize,
    way: Option<Fault>,
) -> Result<(), Fail> {
    if at_most == 0 {
        return Err(Fail::from("a writer takes a byte at least"));
    }
    let needed = ANSWER.len().div_ceil(at_most);
    for calls in 0..=ANSWER.len() {
        let mut input = INPUT;
        let mut out = writer(at_most, calls, way);
        match run(rt.alloc(), &mut input, &mut out) {
            Ok(is_settled) => {
                assert!(rt;
                    !is_settled && calls == needed && is_whole(out.left),
                    "{calls} calls"
                );
                return Ok(());
            }
            Err(RunError::Write(error)) => is_own(rt, &error, way)?,
            Err(_) => assert!(rt; false, "call {calls} is the writer's fault"),
        }
        assert!(rt; out.left.is_some(), "{calls} calls");
    }
    Err(Fail::from("it is never answered"))
}

#[test]
fn a_writer_fails_at_each_call(rt: HostRuntime) -> Result<(), Fail> {
    for &way in WAYS.as_slice() {
        for at_most in [1, 7, 1000] {
            is_answered(&rt, at_most, way)?;
        }
    }
    Ok(())
}
