//! A waiter's row from its text to what is decided.
use crate::{Outcome, PlanFault, State, WaitPlan, classify, matched};
use json_doc::{Doc, Text, read};
use model_files::{WaiterRow, Waiters};
use std::alloc::Global;
use std::test::Fail;

const WAITERS: &str =
    r#"{"waiters":{"BookReady":{"operation":"DescribeBook","delay":5,"maxAttempts":3,"acceptors":[
{"state":"failure","matcher":"error","expected":"BookNotFound"},
{"state":"retry","matcher":"status","expected":404},
{"state":"success","matcher":"pathAll","argument":"Books[].State","expected":"IDLE"},
{"state":"failure","matcher":"pathAny","argument":"Books[].State","expected":"LOST"},
{"state":"success","matcher":"path","argument":"Book.State","expected":"ACTIVE"}]}}}"#;

fn doc(alloc: Global, text: &str) -> Result<Doc, Fail> {
    Ok(read(alloc, text.as_bytes())?)
}

fn plan_of(alloc: Global, text: &str) -> Result<Result<WaitPlan, PlanFault>, Fail> {
    let waiters = Waiters::read(alloc, &doc(alloc, text)?)?;
    let row = waiters
        .row(&Text::from_str(alloc, "book-ready")?)
        .ok_or("no row")?;
    Ok(WaitPlan::of(alloc, row))
}

#[test]
fn the_first_match_decides(rt: HostRuntime) -> Result<(), Fail> {
    let alloc = rt.alloc();
    let plan = plan_of(alloc, WAITERS)??;
    let active = doc(alloc, r#"{"Book":{"State":"ACTIVE"},"Books":[]}"#)?;
    let found = matched(alloc, &plan, Outcome::Document(&active), 200)?;
    assert_eq!(rt;
        found.as_slice(),
        [false, false, false, false, true].as_slice()
    );
    assert_eq!(rt;
        classify(plan.states.as_slice(), found.as_slice()),
        Some(State::Success)
    );
    let lost = doc(alloc, r#"{"Books":[{"State":"IDLE"},{"State":"LOST"}]}"#)?;
    let found = matched(alloc, &plan, Outcome::Document(&lost), 200)?;
    assert_eq!(rt;
        found.as_slice(),
        [false, false, false, true, false].as_slice()
    );
    let code = Text::from_str(alloc, "BookNotFound")?;
    let found = matched(alloc, &plan, Outcome::Error(&code), 404)?;
    assert_eq!(rt;
        found.as_slice(),
        [true, true, false, false, false].as_slice()
    );
    assert_eq!(rt;
        classify(plan.states.as_slice(), found.as_slice()),
        Some(State::Failure)
    );
    Ok(())
}
