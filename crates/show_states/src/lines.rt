//! The lines of how all stands, of which the definitions speak: states, parameters and open actions.
ghost use Rattle.std.specs.Prelude.{◌≡◌, ◌<◌, ℕ, List, OnOk, Some, length};
ghost use Rattle.sml_writer.specs.Tells.{Tells};
ghost use Rattle.smi_journal.specs.CallText.{name_or_nothing, spaced};
ghost use Rattle.show_states.specs.StandingText as text;

use crate::stands::Standing;
use show_names::{tell_object, tell_value};
use smi_journal::Letter;
use sml_domain::{Domain, ObjId, Param, StateId, Value};
use sml_text::Sink;
use sml_tree::Name;
use sml_writer::Out;

// A name, or nothing for None.
fn tell_name<W: Sink>(out: &mut Out<'_, W>, name: Option<Name>)
    ensures { Tells W.contents W.has_refused out.old out.new (name_or_nothing name) }
{
    if let Some(name) = name {
        out.say(name.as_bytes());
    }
}

// A name, with a blank in front.
pub(crate) fn tell_spaced<W: Sink>(out: &mut Out<'_, W>, name: Option<Name>)
    ensures { Tells W.contents W.has_refused out.old out.new
        (spaced (name_or_nothing name)) }
{
    out.say(b" ");
    tell_name(out, name);
}

// A name that is there, with a blank in front.
fn tell_word<W: Sink>(out: &mut Out<'_, W>, name: &Name)
    ensures { Tells W.contents W.has_refused out.old out.new (spaced name.now) }
{
    out.say(b" ");
    out.say(name.as_bytes());
}

// The state of an object.
pub(crate) fn tell_state<W: Sink>(out: &mut Out<'_, W>, domain: &Domain, o: ObjId, state: StateId)
    ensures { Tells W.contents W.has_refused out.old out.new
        (text.standing_state_line domain.now o state) }
{
    out.say(b"state");
    tell_object(out, domain, o);
    tell_spaced(out, domain.state_name(state));
    out.say(b"\n");
}

// The states of all objects.
pub(crate) fn tell_states<S: Standing, W: Sink>(out: &mut Out<'_, W>, standing: &S)
    ensures { Tells W.contents W.has_refused out.old out.new
        (text.standing_states (S.of_domain standing.now) (S.behind standing.now)) }
{
    let objects = standing.domain().objects();
    for o in 0..objects {
        let o = ObjId::new(o);
        tell_state(out, standing.domain(), o, standing.state(o));
    }
}

// A parameter of an object.
fn tell_param<W: Sink>(
    out: &mut Out<'_, W>,
    domain: &Domain,
    o: ObjId,
    param: &Param,
    value: &Value,
)
    ensures { Tells W.contents W.has_refused out.old out.new
        (text.standing_param_line domain.now o param.now value.now) }
{
    out.say(b"param");
    tell_object(out, domain, o);
    tell_word(out, &param.name);
    out.say(b"=");
    tell_value(out, value);
    out.say(b"\n");
}

// The parameters of an object.
pub(crate) fn tell_params_of<W: Sink>(
    out: &mut Out<'_, W>,
    domain: &Domain,
    o: ObjId,
    params: &[Param],
    values: &[Value],
)
    ensures { Tells W.contents W.has_refused out.old out.new
        (text.standing_param_lines domain.now o params.now values.now) }
{
    match params {
        [] => {}
        [param, params @ ..] => match values {
            [] => {}
            [value, values @ ..] => {
                tell_param(out, domain, o, param, value);
                tell_params_of(out, domain, o, params, values);
            }
        },
    }
}

// The parameters of all objects.
pub(crate) fn tell_params<S: Standing, W: Sink>(out: &mut Out<'_, W>, standing: &S)
    ensures { (lines : List ℕ) × text.AreParamLines (S.in_format standing.now) (S.of_domain standing.now)
        (S.behind standing.now) (length (S.of_domain standing.now).objects) lines
        × Tells W.contents W.has_refused out.old out.new lines }
{
    let objects = standing.domain().objects();
    for o in 0..objects {
        let o = ObjId::new(o);
        let domain = standing.domain();
        tell_params_of(
            out,
            domain,
            o,
            domain.class_parameters(o),
            standing.params(o),
        );
    }
}

// What is open at an object, and behind that for what it waits.
pub(crate) fn tell_open<W: Sink>(
    out: &mut Out<'_, W>,
    domain: &Domain,
    o: ObjId,
    letter: &Letter,
    waits: &[u8],
)
    ensures { Tells W.contents W.has_refused out.old out.new
        (text.standing_open_line domain.now o (Some letter.now) waits.now) }
{
    out.say(b"open");
    tell_object(out, domain, o);
    tell_spaced(out, domain.action_name(letter.action));
    out.say(waits);
    out.say(b"\n");
}
