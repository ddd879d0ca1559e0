//! Operands, by the kinds that the opcode table gives them.

ghost use Rattle.std.specs.Prelude.{◌≡◌, [], IfOk, IfErr, codes};
ghost use Rattle.beam_model.specs.ListingForms.{plain_register, typed_part, typed_register, register_of_parts, register_of_text, label_of_text, term_of_part, term_source, is_register_name, source_of_parts, nil_source, source_of_text, member_of_parts, number_member, member_of_text, members_from, members_of_text, import_of_parts, import_of_text, native_of, label_argument, atom_argument, operand_of_text, operands_from};
ghost use Rattle.beam_listing.specs.Gives.{Gives};

use crate::miss::Miss;
use crate::part::FormPart;
use crate::value::{atom, headed, integer, list_parts, number, only, part, term, tuple_parts};
use beam_model::function::Import;
use beam_model::instruction::{Argument, Arguments, Operand, Operands};
use beam_model::opcode::Kind;
use beam_term::{Atom, Term};
use std::alloc::Global;

#[tactic(auto, unfolding(beam_model::specs::ListingForms::plain_register))]
fn plain_register(name: &str, parts: &[FormPart<'_>]) -> Result<Argument, Miss>
    ensures { Gives (λ a. a) result (plain_register name.now parts.now) }
{
    let number = number(only(parts)?)?;
    match name {
        "x" => Ok(Argument::X(number)),
        "y" => Ok(Argument::Y(number)),
        _ => Err(Miss::Unknown),
    }
}

// The register of `{tr,R,_}`.
#[tactic(auto, unfolding(beam_model::specs::ListingForms::typed_register, beam_model::specs::ListingForms::headed_of))]
fn typed_register(alloc: Global, parts: &[FormPart<'_>]) -> Result<Argument, Miss>
    ensures { Gives (λ a. a) result (typed_register parts.now) }
{
    let [register, _] = parts else {
        return Err(Miss::Unknown);
    };
    let parts = tuple_parts(alloc, register.text())?;
    let (name, others) = headed(alloc, &parts)?;
    plain_register(name.as_str(), others)
}

#[tactic(auto, unfolding(beam_model::specs::ListingForms::register_of_parts))]
fn register_of_parts(alloc: Global, name: &str, parts: &[FormPart<'_>]) -> Result<Argument, Miss>
    ensures { Gives (λ a. a) result (register_of_parts name.now parts.now) }
{
    if name == "tr" {
        return typed_register(alloc, parts);
    }
    plain_register(name, parts)
}

#[tactic(auto, unfolding(beam_model::specs::ListingForms::register_of_text, beam_model::specs::ListingForms::headed_of))]
fn register(alloc: Global, text: &[u8]) -> Result<Argument, Miss>
    ensures { Gives (λ a. a) result (register_of_text text.now) }
{
    let parts = tuple_parts(alloc, text)?;
    let (name, others) = headed(alloc, &parts)?;
    register_of_parts(alloc, name.as_str(), others)
}

/// The label of `{f,N}`.
#[tactic(auto, unfolding(beam_model::specs::ListingForms::label_of_text))]
pub fn label(alloc: Global, text: &[u8]) -> Result<u32, Miss>
    ensures { Gives (λ n. n) result (label_of_text text.now) }
{
    number(part(alloc, "f", text)?)
}

#[tactic(auto, unfolding(beam_model::specs::ListingForms::term_of_part))]
fn term_of_part(alloc: Global, name: &str, part: &[u8]) -> Result<Term, Miss>
    ensures { Gives (λ t. t) result (term_of_part name.now part.now) }
{
    match name {
        "integer" => Ok(Term::integer(integer(part)?)),
        "atom" => Ok(Term::atom(atom(alloc, part)?)),
        "literal" => term(alloc, part),
        _ => Err(Miss::Unknown),
    }
}

#[tactic(auto, unfolding(beam_model::specs::ListingForms::term_source))]
fn term_source(alloc: Global, name: &str, parts: &[FormPart<'_>]) -> Result<Argument, Miss>
    ensures { Gives (λ a. a) result (term_source name.now parts.now) }
{
    Ok(Argument::Term(term_of_part(alloc, name, only(parts)?)?))
}

fn is_register_name(name: &str) -> bool
    ensures { result ≡ is_register_name name.now }
{
    name == "x" || name == "y" || name == "tr"
}

fn source_of_parts(alloc: Global, name: &str, parts: &[FormPart<'_>]) -> Result<Argument, Miss>
    ensures { Gives (λ a. a) result (source_of_parts name.now parts.now) }
{
    if is_register_name(name) {
        return register_of_parts(alloc, name, parts);
    }
    term_source(alloc, name, parts)
}

#[tactic(auto, unfolding(beam_model::specs::ListingForms::nil_source))]
fn nil_source(alloc: Global, text: &[u8]) -> Result<Argument, Miss>
    ensures { Gives (λ a. a) result (nil_source text.now) }
{
    let name = atom(alloc, text)?;
    if name.as_str() != "nil" {
        return Err(Miss::Unknown);
    }
    Ok(Argument::Term(Term::nil()))
}

#[tactic(auto, unfolding(beam_model::specs::ListingForms::source_of_text, beam_model::specs::ListingForms::headed_of))]
fn source(alloc: Global, text: &[u8]) -> Result<Argument, Miss>
    ensures { Gives (λ a. a) result (source_of_text text.now) }
{
    match text {
        [] => Err(Miss::Unknown),
        [b'{', ..] => {
            let parts = tuple_parts(alloc, text)?;
            let (name, others) = headed(alloc, &parts)?;
            source_of_parts(alloc, name.as_str(), others)
        }
        _ => nil_source(alloc, text),
    }
}

// A member of a list operand, in braces.
#[tactic(auto, unfolding(beam_model::specs::ListingForms::member_of_parts))]
fn member_of_parts(alloc: Global, name: &str, parts: &[FormPart<'_>]) -> Result<Argument, Miss>
    ensures { Gives (λ a. a) result (member_of_parts name.now parts.now) }
{
    if name == "f" {
        return Ok(Argument::Label(number(only(parts)?)?));
    }
    source_of_parts(alloc, name, parts)
}

fn plain_number(text: &[u8]) -> Result<Argument, Miss>
    ensures { Gives (λ a. a) result (number_member text.now) }
{
    Ok(Argument::Number(number(text)?))
}

#[tactic(auto, unfolding(beam_model::specs::ListingForms::member_of_text, beam_model::specs::ListingForms::headed_of))]
fn member(alloc: Global, text: &[u8]) -> Result<Argument, Miss>
    ensures { Gives (λ a. a) result (member_of_text text.now) }
{
    match text {
        [] => Err(Miss::Unknown),
        [b'{', ..] => {
            let parts = tuple_parts(alloc, text)?;
            let (name, others) = headed(alloc, &parts)?;
            member_of_parts(alloc, name.as_str(), others)
        }
        [b'0'..=b'9', ..] => plain_number(text),
        _ => nil_source(alloc, text),
    }
}

#[tactic(auto, unfolding(beam_model::specs::ListingForms::members_from))]
fn members(alloc: Global, parts: &[FormPart<'_>]) -> Result<Arguments, Miss>
    ensures { Gives (λ v. v) result (members_from [] parts.now) }
{
    let mut items = Vec::new(alloc);
    for part in parts {
        items.push(member(alloc, part.text())?)?;
    }
    Ok(Arguments { items })
}

// The members of `{list,[..]}`.
#[tactic(auto, unfolding(beam_model::specs::ListingForms::members_of_text))]
fn list(alloc: Global, text: &[u8]) -> Result<Arguments, Miss>
    ensures { Gives (λ v. v) result (members_of_text text.now) }
{
    let parts = list_parts(alloc, part(alloc, "list", text)?)?;
    members(alloc, &parts)
}

fn import_of_parts(alloc: Global, name: &str, parts: &[FormPart<'_>]) -> Result<Import, Miss>
    ensures { Gives (λ i. i) result (import_of_parts name.now parts.now) }
{
    let [module, function, arity] = parts else {
        return Err(Miss::Unknown);
    };
    let module = atom(alloc, module.text())?;
    let function = atom(alloc, function.text())?;
    let arity = number(arity.text())?;
    if name != "extfunc" {
        return Err(Miss::Unknown);
    }
    Ok(Import {
        module,
        function,
        arity,
    })
}

// The function of `{extfunc,M,F,A}`.
#[tactic(auto, unfolding(beam_model::specs::ListingForms::import_of_text, beam_model::specs::ListingForms::headed_of))]
fn import(alloc: Global, text: &[u8]) -> Result<Import, Miss>
    ensures { Gives (λ i. i) result (import_of_text text.now) }
{
    let parts = tuple_parts(alloc, text)?;
    let (name, others) = headed(alloc, &parts)?;
    import_of_parts(alloc, name.as_str(), others)
}

// The module of the natives.
fn erlang(alloc: Global) -> Result<Atom, Miss>
    ensures name { IfOk result (λ a. a ≡ codes "erlang") }
    ensures memory { IfErr result (λ e. e ≡ Miss.NoMemory) }
{
    match Atom::new(alloc, "erlang") {
        Ok(name) => Ok(name),
        Err(_) => Err(Miss::NoMemory),
    }
}

// A native, by its name alone.
#[tactic(auto, unfolding(beam_model::specs::ListingForms::native_of))]
fn native(alloc: Global, arity: u32, text: &[u8]) -> Result<Import, Miss>
    ensures { Gives (λ i. i) result (native_of arity text.now) }
{
    let function = atom(alloc, text)?;
    Ok(Import {
        module: erlang(alloc)?,
        function,
        arity,
    })
}

// An atom alone.
#[tactic(auto, unfolding(beam_model::specs::ListingForms::atom_argument))]
fn plain_atom(alloc: Global, text: &[u8]) -> Result<Argument, Miss>
    ensures { Gives (λ a. a) result (atom_argument text.now) }
{
    let name = atom(alloc, part(alloc, "atom", text)?)?;
    Ok(Argument::Term(Term::atom(name)))
}

fn plain_label(alloc: Global, text: &[u8]) -> Result<Argument, Miss>
    ensures { Gives (λ a. a) result (label_argument text.now) }
{
    Ok(Argument::Label(label(alloc, text)?))
}

// The operand that a text is under its kind.
#[tactic(auto, unfolding(beam_model::specs::ListingForms::operand_of_text))]
fn operand(alloc: Global, kind: Kind, text: &[u8]) -> Result<Operand, Miss>
    ensures { Gives (λ o. o) result (operand_of_text kind text.now) }
{
    match kind {
        Kind::Number | Kind::Arity | Kind::FrameSize => Ok(Operand::One(plain_number(text)?)),
        Kind::Label | Kind::FailLabel => Ok(Operand::One(plain_label(alloc, text)?)),
        Kind::Atom => Ok(Operand::One(plain_atom(alloc, text)?)),
        Kind::Source => Ok(Operand::One(source(alloc, text)?)),
        Kind::Register => Ok(Operand::One(register(alloc, text)?)),
        Kind::Import => Ok(Operand::Import(import(alloc, text)?)),
        Kind::Native(arity) => Ok(Operand::Import(native(alloc, arity, text)?)),
        Kind::List => Ok(Operand::List(list(alloc, text)?)),
    }
}

/// The operands that the texts are under these kinds, each of which is for one of them.
#[tactic(auto, unfolding(beam_model::specs::ListingForms::operands_from))]
pub fn operands(alloc: Global, kinds: &[Kind], parts: &[FormPart<'_>]) -> Result<Operands, Miss>
    ensures { Gives (λ v. v) result (operands_from [] kinds.now parts.now) }
{
    let mut items = Vec::new(alloc);
    let mut letters = kinds;
    for part in parts {
        let Some((kind, more)) = letters.split_first() else {
            return Err(Miss::Unknown);
        };
        items.push(operand(alloc, *kind, part.text())?)?;
        letters = more;
    }
    match letters.split_first() {
        None => Ok(Operands::new(alloc, items)?),
        Some(_) => Err(Miss::Unknown),
    }
}
