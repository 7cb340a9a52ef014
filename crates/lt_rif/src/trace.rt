//! The text of a trace: `docs/TRACE.md` has its form.

ghost use Rattle.std.specs.Prelude.{◌≡◌, ◌≤◌, ◌<◌, ◌+◌, ◌^◌, ◌++◌, map, length, drop};
ghost use Rattle.std.specs.List.{flat_map};
ghost use Rattle.std.specs.Option.{option_copied, option_map};
ghost use Rattle.lt_num.specs.Bounds.{most_decimals};
ghost use Rattle.lt_rif.specs.Room.{AddsText, HasRoom, room_for};
ghost use Rattle.lt_rif.specs.Trace.{declared_variable, declared_text, draw_header, header_text, kind_text, line, line_text, locals_header, locals_part, spaced, step_text, step_words};
ghost use Rattle.lt_rif.specs.inner.Spaced.{after_space, step_layout};

use crate::declared::Declared;
use crate::values::{append_after_space, append_before_space, append_locals, append_spaced};
use crate::writing::{append, append_byte, append_number};
use lt_draw::Draw;
use lt_num::{Kind, Value};

/// The bytes that are enough for a header, a line, or a step with an end line after it. The header, the line and
/// the step have so many variables in all, and their names and those of exceptions so many bytes together.
pub fn room_for(variables: usize, names: usize) -> usize
    requires variables { variables < 2 ^ 32 }
    requires names { names < 2 ^ 32 }
    ensures { result ≡ room_for variables names }
{
    256 + 32 * variables + names
}

/// Appends the header of a trace: the seed and the rule of drawing, what the controller takes in, what it gives out, and
/// the scenario's locals, where they are written.
pub fn write_header(
    into: &mut Vec<u8>,
    seed: u64,
    draw: Draw,
    outputs: &[Declared],
    inputs: &[Declared],
    locals: Option<&[Declared]>,
)
    requires { HasRoom into.old
        (header_text seed draw (map declared_variable outputs.now) (map declared_variable inputs.now)
        (option_map (map declared_variable) (option_copied locals))) }
    ensures { AddsText into.old into.new
        (header_text seed draw (map declared_variable outputs.now) (map declared_variable inputs.now)
        (option_map (map declared_variable) (option_copied locals.entry))) }
{
    append(into, b"#seed ");
    append_number(into, seed);
    append_byte(into, b'\n');
    append_draw_header(into, draw);
    append_variables(into, b"#inputs", outputs);
    append_variables(into, b"#outputs", inputs);
    append_locals_header(into, locals);
}

// Appends the line of the rule of drawing, where it is another than the first.
fn append_draw_header(into: &mut Vec<u8>, draw: Draw)
    requires { HasRoom into.old (draw_header draw) }
    ensures { AddsText into.old into.new (draw_header draw) }
{
    match draw {
        Draw::Up => {}
        Draw::Directed => append(into, b"#draw 2\n"),
        Draw::Inside => append(into, b"#draw 3\n"),
    }
}

// Appends the line of the locals, where they are written.
fn append_locals_header(into: &mut Vec<u8>, locals: Option<&[Declared]>)
    requires { HasRoom into.old
        (locals_header (option_map (map declared_variable) (option_copied locals))) }
    ensures { AddsText into.old into.new
        (locals_header (option_map (map declared_variable) (option_copied locals.entry))) }
{
    if let Some(locals) = locals {
        append_variables(into, b"#locals", locals);
    }
}

// Appends the line of a mark and the variables that are declared after it.
fn append_variables(into: &mut Vec<u8>, mark: &[u8], variables: &[Declared])
    requires { HasRoom into.old
        (line (mark.now ++ flat_map declared_text (map declared_variable variables.now))) }
    ensures { AddsText into.old into.new
        (line (mark.now ++ flat_map declared_text (map declared_variable variables.now))) }
{
    append(into, mark);
    append_declared(into, variables);
    append_byte(into, b'\n');
}

// Appends a space, a quoted name and a kind for each variable.
fn append_declared(into: &mut Vec<u8>, variables: &[Declared])
    requires { HasRoom into.old (flat_map declared_text (map declared_variable variables.now)) }
    ensures { AddsText into.old into.new
        (flat_map declared_text (map declared_variable variables.now)) }
{
    let mut variables = variables;
    while let [variable, more @ ..] = variables {
        append(into, b" \"");
        append(into, variable.name.as_bytes());
        append(into, b"\":");
        append(into, kind_word(variable.kind));
        variables = more;
    }
}

// The word of a kind.
fn kind_word(kind: Kind) -> &'static [u8]
    ensures { result.now ≡ kind_text kind }
{
    match kind {
        Kind::Bool => b"bool",
        Kind::Int => b"int",
        Kind::Real => b"real",
    }
}

/// Appends the two lines of a step: its number, from 1, and the values of the scenario's outputs `x` and inputs
/// `y`, and of its locals, where they are written; a local out of scope has none. `kinds` has their kinds in this
/// order; a value that has none isn't written. A real has so many decimals, 0 to 6.
pub fn write_step(
    into: &mut Vec<u8>,
    step: u64,
    x: &[Value],
    y: &[Value],
    locals: Option<&[Option<Value>]>,
    kinds: &[Kind],
    decimals: u32,
)
    requires decimals { decimals ≤ most_decimals }
    requires room { HasRoom into.old
        (step_text decimals step kinds.now x.now y.now (option_copied locals)) }
    ensures { AddsText into.old into.new
        (step_text decimals step kinds.now x.now y.now (option_copied locals.entry)) }
{
    append(into, b"#step ");
    append_number(into, step);
    append_byte(into, b'\n');
    write_step_values(into, x, y, locals, kinds, decimals);
}

/// Appends the second line of a step alone, where the line of its number was written.
pub fn write_step_values(
    into: &mut Vec<u8>,
    x: &[Value],
    y: &[Value],
    locals: Option<&[Option<Value>]>,
    kinds: &[Kind],
    decimals: u32,
)
    requires decimals { decimals ≤ most_decimals }
    requires room { HasRoom into.old
        (line (spaced (step_words decimals kinds.now x.now y.now (option_copied locals)))) }
    ensures { AddsText into.old into.new
        (line (spaced (step_words decimals kinds.now x.now y.now (option_copied locals.entry)))) }
{
    append_step_values(into, x, y, locals, kinds, decimals);
}

// Appends the line of a step's values.
fn append_step_values(
    into: &mut Vec<u8>,
    x: &[Value],
    y: &[Value],
    locals: Option<&[Option<Value>]>,
    kinds: &[Kind],
    decimals: u32,
)
    requires decimals { decimals ≤ most_decimals }
    requires room { HasRoom into.old
        (step_layout decimals kinds.now x.now y.now (option_copied locals)) }
    ensures { AddsText into.old into.new
        (step_layout decimals kinds.now x.now y.now (option_copied locals.entry)) }
{
    append_before_space(into, x, kinds, decimals);
    append(into, b"#outs");
    append_after_space(into, y, kinds_after(kinds, x.len()), decimals);
    append_locals_part(
        into,
        locals,
        kinds_after(kinds_after(kinds, x.len()), y.len()),
        decimals,
    );
    append_byte(into, b'\n');
}

// The kinds after the first so many.
#[tactic(auto, using(std::proofs::lemmas::List::drop_all))]
fn kinds_after(kinds: &[Kind], count: usize) -> &[Kind]
    ensures { result.now ≡ drop count kinds.now }
{
    if count < kinds.len() {
        &kinds[count..]
    } else {
        &[]
    }
}

// Appends the mark of the locals and their words, where they are written, with a space before each.
fn append_locals_part(
    into: &mut Vec<u8>,
    locals: Option<&[Option<Value>]>,
    kinds: &[Kind],
    decimals: u32,
)
    requires decimals { decimals ≤ most_decimals }
    requires room { HasRoom into.old
        (after_space (locals_part decimals kinds.now (option_copied locals))) }
    ensures { AddsText into.old into.new
        (after_space (locals_part decimals kinds.now (option_copied locals.entry))) }
{
    if let Some(locals) = locals {
        append(into, b" #locs");
        append_locals(into, locals, kinds, decimals);
    }
}

/// Appends a line of values of these kinds, as it goes to a controller or to an oracle. A real has so many
/// decimals, 0 to 6.
pub fn write_line(into: &mut Vec<u8>, values: &[Value], kinds: &[Kind], decimals: u32)
    requires decimals { decimals ≤ most_decimals }
    requires kinds { length kinds.now ≡ length values.now }
    requires room { HasRoom into.old (line_text decimals kinds.now values.now) }
    ensures { AddsText into.old into.new (line_text decimals kinds.now values.now) }
{
    append_spaced(into, values, kinds, decimals);
    append_byte(into, b'\n');
}
