//! Natives of the node, and those of a process, by name.

ghost use Rattle.std.specs.Prelude.{◌≡◌};
ghost use Rattle.beam_model.specs.NativeNames.{look_up, node_nullary_names, node_unary_names, node_binary_names, node_ternary_names, node_native_named, process_names, process_native_named};

use beam_model::native::{NodeNative, ProcessNative};
use beam_term::Atom;

fn node_nullary_named(name: &str) -> Option<NodeNative>
    ensures { result ≡ look_up name.now node_nullary_names }
{
    match name {
        "make_ref" => Some(NodeNative::MakeRef),
        _ => None,
    }
}

fn node_unary_named(name: &str) -> Option<NodeNative>
    ensures { result ≡ look_up name.now node_unary_names }
{
    match name {
        "unregister" => Some(NodeNative::Unregister),
        "whereis" => Some(NodeNative::Whereis),
        "is_process_alive" => Some(NodeNative::IsProcessAlive),
        _ => None,
    }
}

fn node_binary_named(name: &str) -> Option<NodeNative>
    ensures { result ≡ look_up name.now node_binary_names }
{
    match name {
        "register" => Some(NodeNative::Register),
        "exit" => Some(NodeNative::Exit),
        "send" => Some(NodeNative::Send),
        "!" => Some(NodeNative::Send),
        "monitor" => Some(NodeNative::Monitor),
        _ => None,
    }
}

fn node_ternary_named(name: &str) -> Option<NodeNative>
    ensures { result ≡ look_up name.now node_ternary_names }
{
    match name {
        "spawn" => Some(NodeNative::Spawn),
        _ => None,
    }
}

fn process_named(name: &str) -> Option<ProcessNative>
    ensures { result ≡ look_up name.now process_names }
{
    match name {
        "demonitor" => Some(ProcessNative::Demonitor),
        _ => None,
    }
}

/// The native of this name and number of arguments that asks something of the node.
pub fn node_native_named(function: &Atom, arity: u32) -> Option<NodeNative>
    ensures { result ≡ node_native_named function.now arity }
{
    let name = function.as_str();
    match arity {
        0 => node_nullary_named(name),
        1 => node_unary_named(name),
        2 => node_binary_named(name),
        3 => node_ternary_named(name),
        _ => None,
    }
}

/// The native of this name and number of arguments that changes its process alone.
pub fn process_native_named(function: &Atom, arity: u32) -> Option<ProcessNative>
    ensures { result ≡ process_native_named function.now arity }
{
    match arity {
        1 | 2 => process_named(function.as_str()),
        _ => None,
    }
}
