// Parameters.
ghost use Rattle.std.specs.Prelude.{◌≡◌, ◌∷◌, IfOk, OnOk};
ghost use Rattle.lucid_types_spec.specs.declared.scope.Entry.TheVariants as entry;
ghost use Rattle.lucid_types_spec.specs.Names.{called};
ghost use Rattle.lucid_types_spec.specs.Types.{cell_widths, value_widths};
ghost use Rattle.lucid_types_laws.specs.Declaration.{int_params, parameters};
ghost use Rattle.lucid_types_expressions.specs.Gives.{Gives};
ghost use Rattle.lucid_types_statements.specs.Kept.{Keeps};
ghost use Rattle.lucid_types_declarations.specs.Parameters.{Enters, EntersOne, one_more};

use crate::known::enter;
use lucid_base::{ArrayName, Id, Items, Memory, Width};
use lucid_parse_tree::P;
use lucid_types_expressions::Fault;
use lucid_types_scope::{Scope, next};
use lucid_types_spec::{Entry, Param, ValueType};
use lucid_types_statements::{type_of, width_of};
use std::alloc::Global;

/// The kinds of the parameters, whose names are added to the scope. NoRule if a width is none.
#[tactic(auto, using(crate::proofs::Entering::entering, std::proofs::lemmas::Grind::common_steps))]
pub fn parameters(alloc: Global, scope: &mut Scope, ps: &[P]) -> Result<Items<Param>, Fault>
    ensures gives { Enters result scope.new (parameters 0 0 scope.old ps.now) }
    ensures kept { OnOk result (Keeps scope.old scope.new) }
{
    let mut entered = Entered {
        params: Items::new(alloc),
        values: 0,
        arrays: 0,
    };
    for p in ps {
        add(alloc, scope, &mut entered, p)?;
    }
    let Entered {
        params,
        values: _,
        arrays: _,
    } = entered;
    Ok(params)
}

/// The parameters so far, and how many of them are values and arrays.
#[derive(Drop)]
pub struct Entered {
    params: Items<Param>,
    values: u32,
    arrays: u32,
}

/// Adds the next parameter and its name.
#[tactic(auto, using(lucid_types_statements::proofs::Kept::keeping, std::proofs::lemmas::Grind::common_steps))]
fn add(alloc: Global, scope: &mut Scope, entered: &mut Entered, p: &P) -> Result<(), Fault>
    ensures gives { EntersOne result entered.new scope.new (one_more entered.old scope.old p.now) }
    ensures kept { OnOk result (Keeps scope.old scope.new) }
{
    match p {
        P::Value(t, n) => match type_of(*t) {
            None => Err(Fault::NoRule),
            Some(t) => {
                enter_local(alloc, scope, n, entered.values, &t)?;
                entered.values = next(entered.values)?;
                entered.params.push(Param::Value(t))?;
                Ok(())
            }
        },
        P::Array {
            short: _,
            width,
            name,
        } => match Width::new(*width) {
            None => Err(Fault::NoRule),
            Some(width) => {
                let array = ArrayName::Param(entered.arrays);
                enter(alloc, scope, name, Entry::Array(array, width))?;
                entered.arrays = next(entered.arrays)?;
                entered.params.push(Param::Array(width))?;
                Ok(())
            }
        },
    }
}

/// Adds the name of a value parameter.
fn enter_local(
    alloc: Global,
    scope: &mut Scope,
    n: &Id,
    number: u32,
    t: &ValueType,
) -> Result<(), Memory>
    ensures { OnOk result (scope.new ≡ called n.now (entry.Local number t.now) ∷ scope.old) }
{
    enter(alloc, scope, n, Entry::Local(number, *t))
}

/// The widths of parameters that are all ints. NoRule if one is none.
pub fn int_params(alloc: Global, params: &[Param]) -> Result<Items<Width>, Fault>
    ensures { Gives result (int_params params.now) }
{
    let mut widths = Items::new(alloc);
    for param in params {
        match param {
            Param::Value(ValueType::Int(w)) => widths.push(*w)?,
            _ => return Err(Fault::NoRule),
        }
    }
    Ok(widths)
}

/// The widths of the value parameters.
pub fn value_widths(alloc: Global, params: &[Param]) -> Result<Items<Width>, Memory>
    ensures { IfOk result (λ widths. widths ≡ value_widths params.now) }
{
    let mut widths = Items::new(alloc);
    for param in params {
        if let Param::Value(t) = param {
            widths.push(width_of(*t))?;
        }
    }
    Ok(widths)
}

/// The widths of the cells of the array parameters.
pub fn cell_widths(alloc: Global, params: &[Param]) -> Result<Items<Width>, Memory>
    ensures { IfOk result (λ widths. widths ≡ cell_widths params.now) }
{
    let mut widths = Items::new(alloc);
    for param in params {
        if let Param::Array(w) = param {
            widths.push(*w)?;
        }
    }
    Ok(widths)
}
