//! The invariants of the types of a listing's parts. The functions change nothing, and answer nothing.

ghost use Rattle.std.specs.List.{All};
ghost use Rattle.beam_listing.specs.Typed.{AreOperands, IsArgument, IsExport, IsImport, IsListing, IsOperand};

use beam_model::function::{Export, Import};
use beam_model::instruction::{Argument, Instruction, Operand};
use beam_model::listing::Listing;

fn argument(argument: &Argument)
    ensures { IsArgument argument.now }
{
    match argument {
        Argument::Term(term) => {
            let _lawful = term.depth();
        }
        Argument::X(number)
        | Argument::Y(number)
        | Argument::Label(number)
        | Argument::Number(number) => {
            let _small = *number;
        }
    }
}

fn arguments(arguments: &[Argument])
    ensures { All IsArgument arguments.now }
{
    for one in arguments {
        argument(one);
    }
}

fn import(import: &Import)
    ensures { IsImport import.now }
{
    let _module = import.module.as_str();
    let _function = import.function.as_str();
    let _arity = import.arity;
}

fn operand(operand: &Operand)
    ensures { IsOperand operand.now }
{
    match operand {
        Operand::One(one) => argument(one),
        Operand::Import(function) => import(function),
        Operand::List(members) => arguments(members.as_slice()),
    }
}

fn operands(operands: &[Operand])
    ensures { All IsOperand operands.now }
{
    for one in operands {
        operand(one);
    }
}

fn instructions(instructions: &[Instruction])
    ensures { All AreOperands instructions.now }
{
    for instruction in instructions {
        operands(instruction.operands.as_slice());
    }
}

fn export(export: &Export)
    ensures { IsExport export.now }
{
    let _name = export.name.as_str();
    let _arity = export.arity;
}

fn exports(exports: &[Export])
    ensures { All IsExport exports.now }
{
    for one in exports {
        export(one);
    }
}

/// The names of a listing are atoms, its terms are terms, and its numbers have 32 bits: so every listing has what the law of printed
/// listings presupposes.
pub fn listing_is_typed(listing: &Listing)
    ensures { IsListing listing.now }
{
    let _name = listing.module.as_str();
    let _count = listing.label_count;
    exports(&listing.exports);
    instructions(&listing.instructions);
}
