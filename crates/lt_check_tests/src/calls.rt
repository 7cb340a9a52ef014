//! What each call answers where memory is ample.

use crate::answering::answer_of;
use crate::shown::{shown_shape, shown_trace};
use lt_check::trace_shape;
use lt_frontend::scenario_of;
use lt_term::Scenario;
use lt_trace::read_trace;
use std::alloc::Global;
use std::test::Fail;

const SCENARIO: &str = "exception A, B
node n(y: int [0;9]; c: bool) returns (x: int [0;3]; r: real [-0.5;1.0]) =
    exist v: int [0;9] in catch A in { exist b: bool in x < v fby x = 0 and r = -0.5 fby { raise B } fby raise A }";

const TRACE: &str = r#"#seed 7
#draw 3
#inputs "x":int "r":real
#outputs "y":int "c":bool
#locals "v.1":int "b.2":bool
#step 1
2 0.07 #outs 5 f #locs 9 t
#step 2
0 -0.50 #outs 0 t #locs 0 f
#end raise B 3
"#;

#[test]
fn a_scenario_has_the_shape_of_its_traces(rt: HostRuntime) -> Result<(), Fail> {
    let shown = shape_of_text(rt.alloc(), SCENARIO)?;
    assert_eq!(rt;
        shown.as_str(),
        "2 decimals
outputs x Int r Real
inputs y Int c Bool
locals v.1 Int b.2 Bool
outputs Int Real
inputs Int 0 to 9 Bool 0 to 1
locals Int Bool
exceptions B A"
    );
    Ok(())
}

#[test]
fn a_trace_is_read(rt: HostRuntime) -> Result<(), Fail> {
    let shown = trace_of_text(rt.alloc(), SCENARIO, TRACE)?;
    assert_eq!(rt;
        shown.as_str(),
        "outputs Num(2) Num(7) inputs Num(5) Bool(false) locals Some(Num(9)) Some(Bool(true))
outputs Num(0) Num(-50) inputs Num(0) Bool(true) locals Some(Num(0)) Some(Bool(false))
Raise(0)"
    );
    Ok(())
}

#[test]
fn a_trace_is_checked(rt: HostRuntime) -> Result<(), Fail> {
    let answer = answer_of(rt.alloc(), SCENARIO, TRACE, 10_000_000)?;
    assert_eq!(rt; answer.as_str(), "legal");
    Ok(())
}

// The shape of the traces of a text's first node, as text.
fn shape_of_text(alloc: Global, text: &str) -> Result<String, Fail> {
    let scenario = scenario_of(alloc, text.as_bytes(), 2, None)?;
    shape_of(alloc, &scenario)
}

fn shape_of(alloc: Global, scenario: &Scenario) -> Result<String, Fail> {
    let shape = trace_shape(alloc, scenario)?;
    Ok(shown_shape(alloc, &shape)?)
}

// What is read of a trace of a text's first node, as text.
fn trace_of_text(alloc: Global, text: &str, trace: &str) -> Result<String, Fail> {
    let scenario = scenario_of(alloc, text.as_bytes(), 2, None)?;
    trace_of(alloc, &scenario, trace)
}

fn trace_of(alloc: Global, scenario: &Scenario, trace: &str) -> Result<String, Fail> {
    let shape = trace_shape(alloc, scenario)?;
    match read_trace(alloc, &shape, trace.as_bytes()) {
        Ok(recorded) => Ok(shown_trace(alloc, &recorded)?),
        Err(_) => Err(Fail::new("it isn't read")),
    }
}
