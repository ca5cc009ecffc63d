// Styles of parameters, and bodies of forms.
use arz_cases::{Case, CaseFault, Outcome};
use arz_json::{Bytes, Style};
use arz_style::{StyleFault, expand, form as form_of};
use std::alloc::Global;

/// The bytes of the tree `value` in the style `style` under the name `as`, with `explode` and with `escape`
/// where they are true; or the fault.
pub fn style(alloc: Global, case: &Case<'_>) -> Result<Outcome, CaseFault> {
    let value = case.json(alloc, "value")?;
    let style = style_named(case.word("style")).ok_or(CaseFault::Malformed("style"))?;
    let explode = case.flag("explode");
    let escape = case.flag("escape");
    let name = case.text(alloc, "as")?;
    outcome_of(
        alloc,
        expand(alloc, style, explode, escape, name.as_str(), &value),
    )
}

/// The body of the form that is the tree `value`, or the fault.
pub fn form(alloc: Global, case: &Case<'_>) -> Result<Outcome, CaseFault> {
    let value = case.json(alloc, "value")?;
    outcome_of(alloc, form_of(alloc, &value))
}

fn outcome_of(alloc: Global, came: Result<Bytes, StyleFault>) -> Result<Outcome, CaseFault> {
    match came {
        Ok(bytes) => Ok(Outcome {
            text: bytes.into_std(),
            status: None,
        }),
        Err(StyleFault::NotSerializable) => Ok(Outcome::words(alloc, "NotSerializable")?),
        Err(StyleFault::FractionUsed) => Ok(Outcome::words(alloc, "FractionUsed")?),
        Err(StyleFault::Memory) => Err(CaseFault::Memory),
    }
}

fn style_named(name: &str) -> Option<Style> {
    Some(match name {
        "matrix" => Style::Matrix,
        "label" => Style::Label,
        "simple" => Style::Simple,
        "form" => Style::Form,
        "spaceDelimited" => Style::SpaceDelimited,
        "pipeDelimited" => Style::PipeDelimited,
        "deepObject" => Style::DeepObject,
        _ => return None,
    })
}
