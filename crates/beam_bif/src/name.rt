//! Natives by name.

ghost use Rattle.std.specs.Prelude.{◌≡◌};
ghost use Rattle.beam_model.specs.Native.{is_exit};
ghost use Rattle.beam_model.specs.NativeNames.{look_up, nullary_names, unary_names, binary_names, ternary_names, native_named, is_built_in};

use beam_model::native::{
    Arithmetic, Binary, Comparison, Native, Nullary, Ternary, TypeTest, Unary,
};
use beam_term::Atom;

fn nullary_named(name: &str) -> Option<Nullary>
    ensures { result ≡ look_up name.now nullary_names }
{
    match name {
        "self" => Some(Nullary::OwnPid),
        "node" => Some(Nullary::Node),
        _ => None,
    }
}

fn unary_named(name: &str) -> Option<Unary>
    ensures { result ≡ look_up name.now unary_names }
{
    let native = match name {
        "-" => Unary::Negate,
        "bnot" => Unary::BitNot,
        "abs" => Unary::Abs,
        "not" => Unary::Not,
        "is_atom" => Unary::IsOfType(TypeTest::Atom),
        "is_integer" => Unary::IsOfType(TypeTest::Integer),
        "is_list" => Unary::IsOfType(TypeTest::List),
        "is_tuple" => Unary::IsOfType(TypeTest::Tuple),
        "is_pid" => Unary::IsOfType(TypeTest::Pid),
        "is_boolean" => Unary::IsOfType(TypeTest::Boolean),
        "is_number" => Unary::IsOfType(TypeTest::Number),
        "is_float" => Unary::IsOfType(TypeTest::Float),
        "is_binary" => Unary::IsOfType(TypeTest::Binary),
        "is_port" => Unary::IsOfType(TypeTest::Port),
        "is_reference" => Unary::IsOfType(TypeTest::Reference),
        "is_function" => Unary::IsOfType(TypeTest::Function),
        "is_map" => Unary::IsOfType(TypeTest::Map),
        "hd" => Unary::Head,
        "tl" => Unary::Tail,
        "length" => Unary::Length,
        "tuple_size" => Unary::TupleSize,
        "size" => Unary::TupleSize,
        "error" => Unary::Error,
        "exit" => Unary::Exit,
        "throw" => Unary::Throw,
        "tuple_to_list" => Unary::TupleToList,
        "list_to_tuple" => Unary::ListToTuple,
        "atom_to_list" => Unary::AtomToList,
        "integer_to_list" => Unary::IntegerToList,
        _ => return None,
    };
    Some(native)
}

fn binary_named(name: &str) -> Option<Binary>
    ensures { result ≡ look_up name.now binary_names }
{
    let native = match name {
        "+" => Binary::Compute(Arithmetic::Add),
        "-" => Binary::Compute(Arithmetic::Subtract),
        "*" => Binary::Compute(Arithmetic::Multiply),
        "div" => Binary::Compute(Arithmetic::Divide),
        "rem" => Binary::Compute(Arithmetic::Remainder),
        "band" => Binary::Compute(Arithmetic::BitAnd),
        "bor" => Binary::Compute(Arithmetic::BitOr),
        "bxor" => Binary::Compute(Arithmetic::BitXor),
        "bsl" => Binary::Compute(Arithmetic::ShiftLeft),
        "bsr" => Binary::Compute(Arithmetic::ShiftRight),
        "==" => Binary::Compare(Comparison::Equal),
        "/=" => Binary::Compare(Comparison::NotEqual),
        "=<" => Binary::Compare(Comparison::LessOrEqual),
        "<" => Binary::Compare(Comparison::Less),
        ">=" => Binary::Compare(Comparison::GreaterOrEqual),
        ">" => Binary::Compare(Comparison::Greater),
        "=:=" => Binary::Compare(Comparison::Equal),
        "=/=" => Binary::Compare(Comparison::NotEqual),
        "max" => Binary::Maximum,
        "min" => Binary::Minimum,
        "and" => Binary::And,
        "or" => Binary::Or,
        "xor" => Binary::Xor,
        "element" => Binary::Element,
        "error" => Binary::Error,
        "++" => Binary::Append,
        _ => return None,
    };
    Some(native)
}

fn ternary_named(name: &str) -> Option<Ternary>
    ensures { result ≡ look_up name.now ternary_names }
{
    match name {
        "raise" => Some(Ternary::Raise),
        "setelement" => Some(Ternary::SetElement),
        _ => None,
    }
}

/// The native of this name and number of arguments. None for a function that asks something of the node, and for one that isn't
/// known.
pub fn native_named(function: &Atom, arity: u32) -> Option<Native>
    ensures { result ≡ native_named function.now arity }
{
    let name = function.as_str();
    match arity {
        0 => nullary_named(name).map(|f| Native::Nullary(f)),
        1 => unary_named(name).map(|f| Native::Unary(f)),
        2 => binary_named(name).map(|f| Native::Binary(f)),
        3 => ternary_named(name).map(|f| Native::Ternary(f)),
        _ => None,
    }
}

/// Whether an instruction of built-in functions may call a native. The others are for calls alone.
pub fn is_built_in(native: Native) -> bool
    ensures { result ≡ is_built_in native }
{
    match native {
        Native::Nullary(_) => true,
        Native::Unary(f) => !matches!(
            f,
            Unary::Error
                | Unary::Exit
                | Unary::Throw
                | Unary::TupleToList
                | Unary::ListToTuple
                | Unary::AtomToList
                | Unary::IntegerToList
        ),
        Native::Binary(f) => !matches!(f, Binary::Error | Binary::Append),
        Native::Ternary(_) => false,
    }
}

/// Whether a native never returns: `error`/1 and /2, `exit`/1 and `throw`/1.
pub fn is_exit(native: Native) -> bool
    ensures { result ≡ is_exit native }
{
    matches!(
        native,
        Native::Unary(Unary::Error | Unary::Exit | Unary::Throw) | Native::Binary(Binary::Error)
    )
}
