//! Traces: what is written of each kind of value and of each end.

ghost use Rattle.std.specs.Prelude.{◌≡◌, ◌≤◌, ◌+◌, [], IfOk, length, map, sum_by, unwrap_or};
ghost use Rattle.std.specs.Option.{option_copied, option_map};
ghost use Rattle.std.specs.String.{string_bytes};
ghost use Rattle.lt_num.specs.Bounds.{most_decimals};
ghost use Rattle.lt_rif.specs.Enough.{AreLocalsSized, AreSized, IsEndSized, names_length};
ghost use Rattle.lt_rif.specs.Trace.{declared_variable, IsNamed};

use crate::rows::check;
use crate::subject::Subject;
use lt_draw::Draw;
use lt_num::{Arith, Kind, Value};
use lt_rif::{
    Declared, End, ValueFault, Who, room_for, room_is_enough, write_end, write_header, write_line,
    write_step,
};
use std::alloc::Global;
use std::str;
use std::test::Fail;

// What is written of values, variables and ends, by what it is.
const TEXTS: &str = r##"
values stand by their kinds
a line at 2 ==> "-0.05 t 0.00 -150 f\n"
a line at 0 ==> "-5 t 0 -150 f\n"
a line of no values at 6 ==> "\n"

a header declares variables
a header ==> "#seed 7\n#inputs \"temp\":real\n#outputs \"heat\":bool\n"
a header where directions are drawn ==> "#seed 7\n#draw 2\n#inputs \"temp\":real\n#outputs \"heat\":bool\n"
a header where targets are drawn inside ==> "#seed 7\n#draw 3\n#inputs \"temp\":real\n#outputs \"heat\":bool\n"
a header with a local ==> "#seed 0\n#inputs\n#outputs \"heat\":bool\n#locals \"gust.1\":int\n"

steps and ends are lines
a step with a local ==> "#step 12\n-0.05 t #outs f #locs -12\n#end normal 12\n"
a step with a local out of scope ==> "#step 1\n-0.05 t #outs #locs ?\n#end limit 1\n"
a step without locals ==> "#step 1\n#outs f\n#end oracle 1\n"
end Normal ==> "#step 3\n#outs\n#end normal 3\n"
end Limit ==> "#step 3\n#outs\n#end limit 3\n"
end Oracle ==> "#step 3\n#outs\n#end oracle 3\n"
end Deadlock ==> "#step 3\n#outs\n#end deadlock 3\n"
end Raise ==> "#step 3\n#outs\n#end raise Jam 3\n"
end Fault ==> "#step 3\n#outs\n#end fault NoPrevious 3\n"
end TooLarge ==> "#step 3\n#outs\n#end toolarge 3\n"
end Malformed ==> "#step 3\n#outs\n#end malformed controller NotAValue 3\n"
end Ended ==> "#step 3\n#outs\n#end ended oracle 3\n"
end Device ==> "#step 3\n#outs\n#end device controller 3\n"
end Budget ==> "#step 3\n#outs\n#end budget 170141183460469231731687303715884105728 3\n"
"##;

#[test]
fn traces_are_written_as_lines(rt: HostRuntime) -> Result<(), Fail> {
    check(&rt, rt.alloc(), &Subject::Traces, TEXTS, 21)
}

/// Puts the text of what a row names.
pub fn put_text(found: &mut String, alloc: Global, given: &str) -> Result<(), Fail> {
    let text = text_of(alloc, given)?;
    Ok(write!(found, "{:?}", str::from_utf8(&text)?)?)
}

// The values and kinds of a line, the values of a step, and the kinds of those and of a local.
const VALUES: [Value; 5] = [
    Value::Num(-5),
    Value::Bool(true),
    Value::Num(0),
    Value::Num(-150),
    Value::Bool(false),
];

const KINDS_OF_VALUES: [Kind; 5] = [Kind::Real, Kind::Bool, Kind::Real, Kind::Int, Kind::Bool];

const OUTPUTS: [Value; 2] = [Value::Num(-5), Value::Bool(true)];

const INPUTS: [Value; 1] = [Value::Bool(false)];

const KINDS: [Kind; 4] = [Kind::Real, Kind::Bool, Kind::Bool, Kind::Int];

// The text of what has this name.
fn text_of(alloc: Global, name: &str) -> Result<Vec<u8>, Fail> {
    match name {
        "a line at 2" => line(alloc, &VALUES, &KINDS_OF_VALUES, 2),
        "a line at 0" => line(alloc, &VALUES, &KINDS_OF_VALUES, 0),
        "a line of no values at 6" => line(alloc, &[], &[], 6),
        "a header" => header_of_output(alloc, Draw::Up),
        "a header where directions are drawn" => header_of_output(alloc, Draw::Directed),
        "a header where targets are drawn inside" => header_of_output(alloc, Draw::Inside),
        "a header with a local" => header_of_local(alloc),
        "a step with a local" => {
            let locals = [Some(Value::Num(-12))];
            step_and_end(
                alloc,
                12,
                &OUTPUTS,
                &INPUTS,
                Some(&locals),
                &KINDS,
                End::Normal,
                &[],
            )
        }
        "a step with a local out of scope" => {
            step_and_end(
                alloc,
                1,
                &OUTPUTS,
                &[],
                Some(&[None]),
                &KINDS,
                End::Limit,
                &[],
            )
        }
        "a step without locals" => {
            step_and_end(alloc, 1, &[], &INPUTS, None, &KINDS, End::Oracle, &[])
        }
        _ => ending(alloc, name),
    }
}

// The line of values, in the room that is enough for it.
fn line(alloc: Global, values: &[Value], kinds: &[Kind], decimals: u32) -> Result<Vec<u8>, Fail>
    requires decimals { decimals ≤ most_decimals }
    requires kinds { length kinds.now ≡ length values.now }
    requires few { length values.now ≤ 100 }
    requires sized { AreSized values.now }
{
    room_is_enough();
    let mut into = Vec::with_capacity(alloc, room_for(values.len(), 0))?;
    write_line(&mut into, values, kinds, decimals);
    Ok(into)
}

// A header, in the room that is enough for it.
fn header(
    alloc: Global,
    seed: u64,
    draw: Draw,
    outputs: &[Declared],
    inputs: &[Declared],
    locals: Option<&[Declared]>,
) -> Result<Vec<u8>, Fail>
    requires few { length outputs.now + length inputs.now + length
        (unwrap_or (option_copied locals) []) ≤ 100 }
    requires names { names_length (map declared_variable outputs.now) + names_length
        (map declared_variable inputs.now) + names_length
        (unwrap_or (option_map (map declared_variable) (option_copied locals)) []) ≤ 100 }
{
    room_is_enough();
    let mut into = Vec::with_capacity(alloc, room_for(100, 100))?;
    write_header(&mut into, seed, draw, outputs, inputs, locals);
    Ok(into)
}

// A header with an output of the scenario and an input.
fn header_of_output(alloc: Global, draw: Draw) -> Result<Vec<u8>, Fail> {
    let outputs = [Declared {
        name: String::from_str(alloc, "temp")?,
        kind: Kind::Real,
    }];
    let inputs = [Declared {
        name: String::from_str(alloc, "heat")?,
        kind: Kind::Bool,
    }];
    header(alloc, 7, draw, &outputs, &inputs, None)
}

// A header with an input of the scenario and a local.
fn header_of_local(alloc: Global) -> Result<Vec<u8>, Fail> {
    let inputs = [Declared {
        name: String::from_str(alloc, "heat")?,
        kind: Kind::Bool,
    }];
    let locals = [Declared {
        name: String::from_str(alloc, "gust.1")?,
        kind: Kind::Int,
    }];
    header(alloc, 0, Draw::Up, &[], &inputs, Some(&locals))
}

// A step, and the end line after it with the same number, in the room that is enough for both.
fn step_and_end(
    alloc: Global,
    step: u64,
    x: &[Value],
    y: &[Value],
    locals: Option<&[Option<Value>]>,
    kinds: &[Kind],
    end: End,
    names: &[String],
) -> Result<Vec<u8>, Fail>
    requires few { length kinds.now ≤ 100 }
    requires x_sized { AreSized x.now }
    requires y_sized { AreSized y.now }
    requires locals_sized { AreLocalsSized (unwrap_or (option_copied locals) []) }
    requires end_sized { IsEndSized end }
    requires named { IsNamed end (length names.now) }
    requires short { sum_by (λ name. length name) (map string_bytes names.now) ≤ 100 }
{
    room_is_enough();
    let mut into = Vec::with_capacity(alloc, room_for(100, 100))?;
    write_step(&mut into, step, x, y, locals, kinds, 2);
    write_end(&mut into, end, names, step);
    Ok(into)
}

// A step of no values, with the end of this name after it. It may raise the second of two exceptions.
fn ending(alloc: Global, name: &str) -> Result<Vec<u8>, Fail> {
    let end = end_of(name)?;
    let names = [
        String::from_str(alloc, "Crash")?,
        String::from_str(alloc, "Jam")?,
    ];
    step_and_end(alloc, 3, &[], &[], None, &[], end, &names)
}

// The end of this name.
fn end_of(name: &str) -> Result<End, Fail>
    ensures named { IfOk result (λ end. IsNamed end 2) }
    ensures sized { IfOk result (λ end. IsEndSized end) }
{
    match name {
        "end Normal" => Ok(End::Normal),
        "end Limit" => Ok(End::Limit),
        "end Oracle" => Ok(End::Oracle),
        "end Deadlock" => Ok(End::Deadlock),
        "end Raise" => Ok(End::Raise { exception: 1 }),
        "end Fault" => Ok(End::Fault(Arith::NoPrevious)),
        "end TooLarge" => Ok(End::TooLarge),
        "end Malformed" => Ok(End::Malformed {
            who: Who::Controller,
            fault: ValueFault::NotAValue,
            place: 40,
        }),
        "end Ended" => Ok(End::Ended {
            who: Who::Oracle,
            taken: 40,
        }),
        "end Device" => Ok(End::Device(Who::Controller)),
        "end Budget" => Ok(End::Budget {
            need: 170141183460469231731687303715884105728,
        }),
        _ => Err(Fail::new("an end")),
    }
}
