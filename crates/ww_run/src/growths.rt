//! Scripts that are run where a growth is refused, and once more then. `checks/refuse_library_growths` refuses each
//! growth in turn.

use crate::workers::{RunFault, run_scripts};
use std::alloc::Global;
use std::test::Fail;
use ww_plain::Reply;
use ww_script::{Input, Outcome, ScriptAnswer, Scripts, read_input};
use ww_txn::Open;

/// One script, which adds to a node and asks for its value.
const ADD_AND_GET: &str = r#"{"version":1,"kind":"wound-wait","history":true,
    "nodes":[{"value":0,"ports":[null,null,null,null]}],"scripts":[[["add","list",[[0,7]]],["get","list",[0]]]]}"#;

/// The script, read again if an allocation was refused the first time.
fn scripts(alloc: Global) -> Result<Scripts, Fail> {
    for _ in 0..2 {
        if let Ok(Input::Scripts(scripts)) = read_input(alloc, ADD_AND_GET.as_bytes()) {
            return Ok(scripts);
        }
    }
    Err(Fail::from("scripts"))
}

fn is_done(answer: Option<&ScriptAnswer>) -> bool {
    matches!(answer, Some(ScriptAnswer::Reply(Reply::Done)))
}

fn is_seven(answer: Option<&ScriptAnswer>) -> bool {
    matches!(answer, Some(ScriptAnswer::Reply(Reply::Values(told))) if told.as_slice() == [7].as_slice())
}

/// Whether that is what comes of it.
fn is_told(outcome: &Outcome) -> bool {
    let Some(answers) = outcome.replies.first() else {
        return false;
    };
    let Some(places) = &outcome.places else {
        return false;
    };
    (outcome.replies.len(), answers.len(), outcome.graph.size()) == (1, 2, 1)
        && is_done(answers.first())
        && is_seven(answers.last())
        && places.as_slice() == [(0, 0), (0, 1)].as_slice()
        && outcome.graph.node(0).value == 7
}

#[test]
fn scripts_are_run(rt: HostRuntime) -> Result<(), Fail> {
    let alloc = rt.alloc();
    let first = scripts(alloc)?;
    let again = scripts(alloc)?;
    let outcome = match run_scripts(&rt, alloc, first, &Open) {
        Ok(outcome) => outcome,
        Err(fault) => {
            assert!(rt;
                matches!(
                    (fault, fault.number()),
                    (RunFault::NoMemory, 16) | (RunFault::NoThread, 19)
                )
            );
            run_scripts(&rt, alloc, again, &Open)
                .ok()
                .ok_or("an outcome")?
        }
    };
    assert!(rt; is_told(&outcome));
    Ok(())
}
