// Outputs.
ghost use Rattle.std.specs.Prelude.{◌≡◌, ◌++◌, IfOk, OnOk};
ghost use Rattle.std.specs.Option.{option_to_list};
ghost use Rattle.arz_expr.specs.Reading.{reading};
ghost use Rattle.arz_description.specs.Parts.{output_of, outputs_of, expression_in};

use crate::parts::Output;
use arz_expr::Expr;
use arz_json::{Json, Many, Member};
use std::alloc::{AllocError, Global};

fn read_expression(alloc: Global, value: &Json) -> Result<Option<Expr>, AllocError>
    ensures { IfOk result (λ e. e ≡ expression_in value.now) }
{
    match value.as_text() {
        Some(text) => {
            let found = Expr::read(alloc, text)?;
            Ok(found)
        }
        None => Ok(None),
    }
}

fn read_output(alloc: Global, member: &Member) -> Result<Option<Output>, AllocError>
    ensures { IfOk result (λ o. o ≡ output_of member.now) }
{
    match read_expression(alloc, &member.value)? {
        Some(value) => {
            let name = member.name.copy(alloc)?;
            Ok(Some(Output { name, value }))
        }
        None => Ok(None),
    }
}

fn add_output(outputs: &mut Many<Output>, output: Option<Output>) -> Result<(), AllocError>
    ensures { OnOk result (outputs.new ≡ outputs.old ++ option_to_list output) }
{
    match output {
        Some(output) => outputs.push(output),
        None => Ok(()),
    }
}

/// The outputs that the members of an object are.
pub fn read_outputs(alloc: Global, members: &[Member]) -> Result<Many<Output>, AllocError>
    ensures { IfOk result (λ os. os ≡ outputs_of members.now) }
{
    let mut outputs = Many::new(alloc);
    for member in members {
        let output = read_output(alloc, member)?;
        add_output(&mut outputs, output)?;
    }
    Ok(outputs)
}
