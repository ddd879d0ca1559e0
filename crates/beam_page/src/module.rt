//! What is told of modules.
ghost use Rattle.std.specs.Prelude.{◌≡◌, IfOk};
ghost use Rattle.json.specs.Print.{print};
ghost use Rattle.beam_page.specs.Modules.{instance_tokens, module_list_tokens, module_tokens, old_instance_tokens};

use crate::to_json::{ToJson, json_of, put_member};
use beam_term::Atom;
use json::Writer;
use std::alloc::{AllocError, Global};

/// The current instance of a module.
#[derive(Clone, Copy, Debug, PartialEq, Eq)]
pub struct InstanceFacts {
    /// Its number.
    pub instance: u32,
    pub instructions: u64,
}

/// The old instance of a module.
#[derive(Drop)]
pub struct OldInstance {
    /// Its number.
    pub instance: u32,
    pub instructions: u64,
    /// How many processes linger in it.
    pub lingering: u64,
    /// The numbers of the first of them.
    pub first: Vec<u32>,
}

/// What is told of a module.
pub struct ModuleFacts {
    pub name: Atom,
    pub current: Option<InstanceFacts>,
    pub old: Option<OldInstance>,
}

impl Drop for ModuleFacts {
    fn drop(self) {
        let ModuleFacts {
            name: _name,
            current: _current,
            old: _old,
        } = self;
    }
}

/// A part of a node's modules.
pub struct ModuleList {
    pub modules: Vec<ModuleFacts>,
    /// What the next part is asked behind; `None` where this part is the last.
    pub next: Option<u64>,
    /// Whether there are more than were looked at.
    pub is_partial: bool,
}

impl Drop for ModuleList {
    fn drop(self) {
        let ModuleList {
            modules: _modules,
            next: _next,
            is_partial: _is_partial,
        } = self;
    }
}

impl ToJson for InstanceFacts {
    ghost tokens = { instance_tokens };

    #[tactic(auto, unfolding(crate::specs::Modules::instance_tokens))]
    fn put(&self, writer: &mut Writer) -> Result<(), AllocError> {
        writer.begin_object()?;
        put_member(writer, "instance", &self.instance)?;
        put_member(writer, "instructions", &self.instructions)?;
        writer.end_object()
    }
}

impl ToJson for OldInstance {
    ghost tokens = { old_instance_tokens };

    #[tactic(auto, unfolding(crate::specs::Modules::old_instance_tokens))]
    fn put(&self, writer: &mut Writer) -> Result<(), AllocError> {
        writer.begin_object()?;
        put_member(writer, "instance", &self.instance)?;
        put_member(writer, "instructions", &self.instructions)?;
        put_member(writer, "lingering", &self.lingering)?;
        put_member(writer, "first", &self.first)?;
        writer.end_object()
    }
}

impl ToJson for ModuleFacts {
    ghost tokens = { module_tokens };

    #[tactic(auto, unfolding(crate::specs::Modules::module_tokens))]
    fn put(&self, writer: &mut Writer) -> Result<(), AllocError> {
        writer.begin_object()?;
        put_member(writer, "name", &self.name)?;
        put_member(writer, "current", &self.current)?;
        put_member(writer, "old", &self.old)?;
        writer.end_object()
    }
}

impl ToJson for ModuleList {
    ghost tokens = { module_list_tokens };

    #[tactic(auto, unfolding(crate::specs::Modules::module_list_tokens))]
    fn put(&self, writer: &mut Writer) -> Result<(), AllocError> {
        writer.begin_object()?;
        put_member(writer, "modules", &self.modules)?;
        put_member(writer, "next", &self.next)?;
        put_member(writer, "partial", &self.is_partial)?;
        writer.end_object()
    }
}

/// The list as JSON: `{"modules":[..],"next":N|null,"partial":B}`. It fails only for memory.
pub fn modules_json(alloc: Global, list: &ModuleList) -> Result<Vec<u8>, AllocError>
    ensures { IfOk result (λ bytes. bytes.items ≡ print (module_list_tokens list.now)) }
{
    json_of(alloc, list)
}
